// The drive sheet as definitions and laws: its fields, its text as a form, which texts are accepted, that a text is one sheet's at most;
// and its numbers by name. No function: a wrong form is refused here, without the readers.
#![tactic(auto)]

use base_model::{EDGES, NUMBERS};

// The refusal of a text that is no sheet.
pub const NO_SHEET: u32 = 18;

// Where the words of each line that stands once begin among them, and how many words these are.
pub const SIZE: usize = 0;

pub const WINDOW: usize = 2;

pub const START: usize = 6;

pub const END: usize = 8;

pub const BLOCK: usize = 10;

pub const ALLOW: usize = 14;

pub const LIMITS: usize = 18;

pub const RESULTS: usize = 19;

pub const FIXED: usize = 20;

// How many words a place has: its numbers, then its edges.
pub const WORDS: usize = NUMBERS + EDGES;

// The most that a sheet may have of each: bytes, cells, obstacles, centres of its window, group entries, places and states.
pub const MOST_BYTES: usize = 8192;

pub const MOST_CELLS: usize = 64;

pub const MOST_OBSTACLES: usize = 32;

pub const MOST_CENTRES: usize = 256;

pub const MOST_GROUPS: usize = 4096;

pub const MOST_PLACES: usize = 64;

pub const MOST_STATES: usize = 500;

// The entries of counts that a window of so many centres takes at most: one more than its width by one more than its height.
pub const MOST_COUNTS: usize = 2 * (MOST_CENTRES + 1);
