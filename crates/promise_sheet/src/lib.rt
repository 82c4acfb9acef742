// RULES 11 for the program: what becomes of the answer to a sheet when its limits are raised. Definitions and proofs alone.
#![tactic(auto)]
