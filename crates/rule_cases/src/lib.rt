// Cases computed through the calls: the marked ones (RULES 9.8), further ones, and the length of the points area.
#![tactic(auto)]
