// A begun search of a sheet: stepped once, and what that leaves written. Apart from begin, so that the step is checked alone.
#![tactic(auto)]

ghost use Rattle.std.specs.Prelude.{◌≡◌, ◌≤◌, length};
ghost use Rattle.std.proofs.Math.Option.{none};
ghost use Rattle.set_places.specs.Given.{inputs_in};
ghost use Rattle.call_lengths.specs.Lent.{work_of, store_of_areas};
ghost use Rattle.call_lengths.specs.Same.{SameWork, SameStore};
ghost use Rattle.rule_calls.specs.Areas as areas;
ghost use Rattle.sheet_texts.specs.Parts.{enough, Front, Writable};
ghost use Rattle.sheet_texts.specs.Texts.{result_text};
ghost use Rattle.sheet_rule.specs.Drive.{step_text};
ghost use Rattle.sheet_finish.specs.Inner.{Steppable};

use base_model::{Limits, Record};
use call_lengths::{Store, Work};
use set_places::Given;

// Writes the result that stands in a record and its areas; that it fits the area rests on what the slices' types say of their entries.
fn write_left(out: &mut [u8], end: Record, layouts: &[u16], points: &[u32]) -> usize
    requires writable { Writable end.layouts end.routes layouts.now points.now }
    requires enough_in_bounds { enough ≤ length out.old }
    ensures { (a : areas.Store)
        → a.layouts ≡ layouts.now
        → a.points ≡ points.now
        → Front (result_text end a) out.old out.new result }
{
    sheet_write::write_result(out, end, layouts, points)
}

// Steps a begun search once by the state limit, and writes what that leaves, or the refusal.
pub fn finish(
    given: &Given<'_>,
    limits: Limits,
    steps: &[i32],
    rec: Record,
    work: &mut Work<'_>,
    store: &mut Store<'_>,
    out: &mut [u8],
) -> usize
    requires { Steppable rec store.old.points.now out.old }
    ensures text { Front
        (step_text steps.now (inputs_in given.now) limits
        (record { answer = none; rec = rec; work = work_of work.old; store = store_of_areas store.old }))
        out.old out.new result }
    ensures same_work { SameWork work.old work.new }
    ensures same_store { SameStore store.old store.new }
{
    match call_step::step(given, limits, steps, rec, limits.states, work, store) {
        Ok(end) => {
            let kept = store.kept();
            write_left(out, end, kept.layouts, kept.points)
        }
        Err(refusal) => sheet_write::write_refusal(out, refusal),
    }
}
