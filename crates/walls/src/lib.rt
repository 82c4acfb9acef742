// The calls (RULES 7): the search record lent, the placements lent as a row of records. Each contract stands with its function, in the
// crate that the call is handed on from.
#![tactic(auto)]

// A plan: what a search or a judgement is given, the placements as a row of records.
pub use walls_lent::Plan;

// The working areas of a call.
pub use call_lengths::Work;

// The areas that hold a search.
pub use call_lengths::Store;

// The same areas where a call only reads them.
pub use call_lengths::Kept;

// The order of steps of the original, as a table.
pub use route_table::original_steps;

// What preparing is asked: the map, its obstacles, a window with its ends, and the mover.
pub use call_prepare::Preparing;

// Marks a mover's baseline. This call and the next two take neither placements nor a record.
pub use call_prepare::prepare;

// Covers a mover's baseline with a rectangle: one more at each centre off which it keeps the mover.
pub use call_cover::cover;

// Lifts the rectangle off again: one less at each of these centres.
pub use call_cover::lift;

// Ranks a placement by the squared distance of its footprint's centre from the entrance, with the remainder; none beyond the radius. This
// call and the next take no area.
pub use call_rank::rank;

// Whether the first of two ranks is closer: an order to sort by.
pub use call_rank::closer;

// Begins a search and hands its record back.
pub use walls_begin::begin;

// The record that begin hands back, all zero where it refused.
pub use call_begin::record_or_none;

// Evaluates n sets more, or stops. The search record is altered here alone.
pub use walls_step::step;

// Hands back layout k's allowed route, a part of the points area.
pub use walls_read::read;

// Judges a selection of placements, and counts the ground left: the centres to which the blocked mover has a route from the start.
pub use walls_judge::judge;
