// A plan: what a search or a judgement is given, the placements lent as a row of records; and what of it is lent on once they are
// laid flat.
#![tactic(auto)]

ghost use Rattle.std.specs.Prelude.{◌≡◌};
ghost use Rattle.set_places.specs.Given.{inputs_in};
ghost use Rattle.walls_rows.specs.Rows.{rows_of};
ghost use Rattle.walls_lent.specs.Given.{lent};
ghost use Rattle.walls_lent.specs.Plans.{laid_in};

use base_model::{EDGES, NUMBERS, Placement, Query, SLOTS};
use set_places::{FlatPlaces, Given};
use walls_rows::{MOST_LAID, Rows, at_most};

// The query, the groups' slot counts, the placements, and the baselines of the blocked and the allowed mover.
#[derive(Clone, Copy)]
pub struct Plan<'a> {
    pub query: Query,
    pub groups: &'a [u32],
    pub places: &'a [Placement],
    pub block_base: &'a [u8],
    pub allow_base: &'a [u8],
}

impl<'a> Plan<'a> {
    // What the calls over flat placements are given: the first 6,145 placements at most, out of the rows that they were laid into.
    pub fn flat(self, rows: &'a Rows) -> Given<'a>
        requires { rows.now ≡ rows_of self.places.now }
        ensures { inputs_in result ≡ laid_in self.entry }
    {
        let laid = at_most(self.places.len());
        let fours = NUMBERS * laid;
        let eights = EDGES * laid;
        Given {
            query: self.query,
            places: FlatPlaces {
                groups: self.groups,
                numbers: &rows.numbers[..fours],
                edges: &rows.edges[..eights],
            },
            block_base: self.block_base,
            allow_base: self.allow_base,
        }
    }
}

// Nothing of it where it is too short for all of the placements, so that a call that sees only the first ones turns it away too.
#[tactic(auto, using(crate::proofs::Cut::lent_few, crate::proofs::Cut::lent_long, crate::proofs::Cut::lent_short))]
pub fn lists_lent(lists: usize, places: usize) -> usize
    ensures { result ≡ lent lists places }
{
    if places <= MOST_LAID || places <= lists / SLOTS {
        lists
    } else {
        0
    }
}
