// What the calls are given and leave where every value is a number: definitions and proofs alone.
#![tactic(auto)]

// How many numbers a record is.
pub const RECORD_NUMBERS: usize = 50;
