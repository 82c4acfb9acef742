// Placements as flat rows of numbers and edges, one at a time.
#![tactic(auto)]

ghost use Rattle.std.specs.Prelude.{◌≡◌, ◌+◌, ◌*◌, ◌≤◌, min, pos, length, replicate};
ghost use Rattle.base_laws.specs.Fill.{over};
ghost use Rattle.walls_rows.specs.Rows.{place_numbers, rect_edges, both_of};

use base_model::{EDGES, NUMBERS, Placement, Rect, SIDES};

// How many placements are laid at most: one more than a call takes, so that a call sees where there are too many.
pub const MOST_LAID: usize = 6145;

#[derive(Clone, Copy)]
pub struct Rows {
    pub numbers: [u32; NUMBERS * MOST_LAID],
    pub edges: [i32; EDGES * MOST_LAID],
}

// A part is stored from `at` on.
fn put<T: Copy>(row: &mut [T], at: usize, part: &[T])
    requires { at + length part.now ≤ length row.old }
    ensures { row.new ≡ over row.old at part.now }
{
    row[at..at + part.len()].copy_from_slice(part);
}

#[tactic(auto, unfolding(crate::specs::Rows::place_numbers))]
fn numbers_of(p: Placement) -> [u32; NUMBERS]
    ensures { result ≡ place_numbers p }
{
    [p.spec, p.group, p.tile.x, p.tile.y]
}

fn edges_of(r: Rect) -> [i32; SIDES]
    ensures { result ≡ rect_edges r }
{
    [r.left, r.top, r.right, r.bottom]
}

// Placement i: its numbers and its edges; the next index.
pub fn lay(numbers: &mut [u32], edges: &mut [i32], i: usize, p: Placement) -> usize
    requires { (4 * i + 4 ≤ length numbers.old) × (8 * i + 8 ≤ length edges.old) }
    ensures { (result ≡ i + 1)
        × ((numbers.new ≡ over numbers.old (4 * i) (place_numbers p))
        × (edges.new ≡ over edges.old (8 * i) (both_of p))) }
{
    let at = EDGES * i;
    put(numbers, NUMBERS * i, &numbers_of(p));
    put(edges, at, &edges_of(p.footprint));
    put(edges, at + SIDES, &edges_of(p.collision));
    i + 1
}

pub fn at_most(n: usize) -> usize
    ensures { result ≡ min n 6145 }
{
    n.min(MOST_LAID)
}
