// What the C functions promise together: definitions and proofs alone.
#![tactic(auto)]
