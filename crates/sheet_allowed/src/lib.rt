// A sheet in the forms that the calls take; its allowed mover prepared, then the search. Apart from the drive, so that this preparation is
// checked alone.
#![tactic(auto)]

ghost use Rattle.std.specs.Prelude.{◌≡◌, ℕ, ◌≤◌, length, List, ◌∷◌};
ghost use Rattle.call_lengths.specs.Lent.{work_of};
ghost use Rattle.call_lengths.specs.Same.{SameWork};
ghost use Rattle.call_prepare.specs.Prepare.{preparation_in};
ghost use Rattle.sheet_texts.specs.Parts.{enough, Front};
ghost use Rattle.sheet_form.specs.Sheets.{Sheet};
ghost use Rattle.sheet_rule.specs.Drive.{bounds_of, allow_text};
ghost use Rattle.sheet_allowed.specs.Inner.{FlatAs, asked_of};

use base_model::{Bounds, Limits, Query};
use call_lengths::Work;
use call_prepare::Preparing;
use set_places::{FlatPlaces, Given};
use sheet_form::MOST_CENTRES;

// The values of a sheet: its map, its obstacles, what is searched for, and its placements lent flat.
#[derive(Clone, Copy)]
pub struct FlatSheet<'a> {
    pub across: u32,
    pub down: u32,
    pub cells: &'a [u8],
    pub obstacles: &'a [i32],
    pub query: Query,
    pub limits: Limits,
    pub places: FlatPlaces<'a>,
}

impl FlatSheet<'_> {
    // What preparing a mover of the sheet is asked.
    pub fn preparing<'a>(&'a self, mover: Bounds) -> Preparing<'a>
        ensures { preparation_in result ≡ asked_of self.now mover }
    {
        Preparing {
            across: self.across,
            down: self.down,
            cells: self.cells,
            obstacles: self.obstacles,
            window: self.query.window,
            start: self.query.start,
            end: self.query.end,
            mover,
        }
    }
}

// Prepares the allowed mover, then searches.
pub fn allowed(
    sheet: &FlatSheet<'_>,
    mover: Bounds,
    block_base: &[u8],
    steps: &[i32],
    work: &mut Work<'_>,
    out: &mut [u8],
) -> usize
    requires { enough ≤ length out.old }
    ensures text { (s : Sheet) (m : List ℕ) (ms : List (List ℕ))
        → FlatAs s sheet.now
        → mover ≡ bounds_of m
        → Front
        (allow_text steps.now s (m ∷ ms) block_base.now (work_of work.old))
        out.old out.new result }
    ensures same_work { SameWork work.old work.new }
{
    let mut allow_base = [0u8; MOST_CENTRES];
    if let Err(refusal) = call_prepare::prepare(
        &sheet.preparing(mover),
        steps,
        &mut allow_base,
        work,
    ) {
        return sheet_write::write_refusal(out, refusal);
    }
    let given = Given {
        query: sheet.query,
        places: sheet.places,
        block_base,
        allow_base: &allow_base,
    };
    sheet_search::search(&given, sheet.limits, steps, work, out)
}
