// Cover counts: what covering a baseline with a rectangle and lifting it off change. Definitions and proofs alone.
#![tactic(auto)]
