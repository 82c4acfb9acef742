// The calls: definitions alone.
#![tactic(auto)]
