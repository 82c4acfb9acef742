// A search of a sheet: begun, then its refusal written or the search finished. Apart from the drive, so that begin is checked alone.
#![tactic(auto)]

ghost use Rattle.std.specs.Prelude.{◌≤◌, length};
ghost use Rattle.set_places.specs.Given.{inputs_in};
ghost use Rattle.call_lengths.specs.Lent.{work_of};
ghost use Rattle.call_lengths.specs.Same.{SameWork};
ghost use Rattle.rule_calls.specs.Calls.{begin_call};
ghost use Rattle.sheet_texts.specs.Parts.{enough, Front};
ghost use Rattle.sheet_rule.specs.Drive.{no_store, step_text};

use base_model::{LAYOUTS, Limits, ROW, SLOTS};
use call_lengths::{Store, Work};
use set_places::Given;
use sheet_form::{MOST_CENTRES, MOST_PLACES, MOST_STATES};

// Begins a search, steps once by the state limit and writes what that leaves, or the refusal of either.
pub fn search(
    given: &Given<'_>,
    limits: Limits,
    steps: &[i32],
    work: &mut Work<'_>,
    out: &mut [u8],
) -> usize
    requires { enough ≤ length out.old }
    ensures text { Front
        (step_text steps.now (inputs_in given.now) limits
        (begin_call steps.now (inputs_in given.now) limits (work_of work.old) no_store))
        out.old out.new result }
    ensures same_work { SameWork work.old work.new }
{
    let mut lists = [0u16; SLOTS * MOST_PLACES];
    let mut visited = [0u16; ROW * MOST_STATES];
    let mut layouts = [0u16; ROW * LAYOUTS];
    let mut points = [0u32; 2 * LAYOUTS * MOST_CENTRES];
    let mut store = Store {
        lists: &mut lists,
        visited: &mut visited,
        layouts: &mut layouts,
        points: &mut points,
    };
    // Named: must-fail/begin_left_out.edit changes what is matched, and not the call.
    let begun = call_begin::begin(given, limits, steps, work, &mut store);
    match begun {
        Ok(rec) => sheet_finish::finish(given, limits, steps, rec, work, &mut store, out),
        Err(refusal) => sheet_write::write_refusal(out, refusal),
    }
}
