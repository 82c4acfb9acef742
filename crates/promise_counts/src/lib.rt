// What the calls make of cover counts, and what covering a prepared baseline comes to: definitions and proofs alone.
#![tactic(auto)]
