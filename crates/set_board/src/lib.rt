// What is lent for a set of placements, and the board that it makes: definitions and laws, no code.
#![tactic(auto)]
