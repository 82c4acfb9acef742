// What the calls are given as numbers: the query, and how much of the visited area is lent on.
#![tactic(auto)]

ghost use Rattle.std.specs.Prelude.{◌≡◌};
ghost use Rattle.walls_numbers.specs.Numbers.{allow_from, query_from};
ghost use Rattle.walls_numbers.specs.Lent.{lent_of};

use base_model::{Bounds, Position, Query, Rect};
use walls_numbers::RECORD_NUMBERS;

fn allow_from(given: u32, left: u32, top: u32, right: u32, bottom: u32) -> Option<Bounds>
    ensures { result ≡ allow_from given left top right bottom }
{
    if given == 0 {
        return None;
    }
    Some(Bounds {
        left: left,
        top: top,
        right: right,
        bottom: bottom,
    })
}

pub fn query_from(
    window_left: i32,
    window_top: i32,
    window_right: i32,
    window_bottom: i32,
    start_x: u32,
    start_y: u32,
    end_x: u32,
    end_y: u32,
    block_left: u32,
    block_top: u32,
    block_right: u32,
    block_bottom: u32,
    allow_given: u32,
    allow_left: u32,
    allow_top: u32,
    allow_right: u32,
    allow_bottom: u32,
) -> Query
    ensures { result
        ≡ query_from window_left window_top window_right window_bottom start_x start_y end_x end_y
        block_left block_top block_right block_bottom
        allow_given allow_left allow_top allow_right allow_bottom }
{
    Query {
        window: Rect {
            left: window_left,
            top: window_top,
            right: window_right,
            bottom: window_bottom,
        },
        start: Position {
            x: start_x,
            y: start_y,
        },
        end: Position { x: end_x, y: end_y },
        block: Bounds {
            left: block_left,
            top: block_top,
            right: block_right,
            bottom: block_bottom,
        },
        allow: allow_from(
            allow_given,
            allow_left,
            allow_top,
            allow_right,
            allow_bottom,
        ),
    }
}

// How much of the visited area is lent on: nothing where the record is too short, so that the call turns that away in its place.
pub fn visited_lent(visited: usize, rec: usize) -> usize
    ensures { result ≡ lent_of rec visited }
{
    if rec < RECORD_NUMBERS {
        return 0;
    }
    visited
}
