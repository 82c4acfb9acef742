// One set of placements: what it leaves open, its evaluation, what a wall is, judging.
#![tactic(auto)]
