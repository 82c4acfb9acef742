// What the calls promise together: definitions and proofs alone.
#![tactic(auto)]
