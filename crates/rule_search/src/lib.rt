// The search over sets of placements, frame by frame.
#![tactic(auto)]
