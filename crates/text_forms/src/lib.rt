// Canonical texts as definitions and laws: forms, patterns, what reading finds. No function: a change to a reader or a printer rechecks
// none of it.
#![tactic(auto)]

// The largest word of 32 bits.
pub const WORD: u32 = 4294967295;

// The first word that stands for a negative number.
pub const NEGATIVE: u32 = 2147483648;
