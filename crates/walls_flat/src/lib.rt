// A lent row of placements as flat rows of numbers and edges.
#![tactic(auto)]

ghost use Rattle.std.specs.Prelude.{◌≡◌, map, ◌++◌, ◌*◌, ◌≤◌, length, drop};
ghost use Rattle.base_laws.specs.Lists.{flat};
ghost use Rattle.walls_rows.specs.Rows.{place_numbers, both_of, rows_of};

use base_model::{EDGES, NUMBERS, Placement};
use walls_rows::{MOST_LAID, Rows, at_most, lay};

fn lay_all(places: &[Placement], numbers: &mut [u32], edges: &mut [i32])
    requires { (4 * length places.now ≤ length numbers.old) × (8 * length places.now ≤ length edges.old) }
    ensures { (numbers.new ≡ flat (map place_numbers places.now) ++ drop (4 * length places.now) numbers.old)
        × (edges.new ≡ flat (map both_of places.now) ++ drop (8 * length places.now) edges.old) }
{
    for (i, p) in places.iter().enumerate() {
        lay(numbers, edges, i, *p);
    }
}

// The first 6,145 placements at most, zeros after.
pub fn rows_of(places: &[Placement]) -> Rows
    ensures { result ≡ rows_of places.now }
{
    let mut numbers = [0; NUMBERS * MOST_LAID];
    let mut edges = [0; EDGES * MOST_LAID];
    lay_all(&places[..at_most(places.len())], &mut numbers, &mut edges);
    Rows { numbers, edges }
}
