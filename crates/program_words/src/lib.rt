// Stored searches: the words of a line read, and what is printed of an answer. Apart from the calls, in whichever form they are made.
#![tactic(auto)]

pub mod answers;
pub mod say;
pub mod stored;
pub mod words;
