// Stepping a search: the checks of its inputs, its record and its areas, then its portions.
#![tactic(auto)]

ghost use Rattle.std.specs.Prelude.{◌≡◌};
ghost use Rattle.base_model.specs.Answers.{first, reply_of};
ghost use Rattle.rule_calls.specs.Areas as areas;
ghost use Rattle.rule_calls.specs.Calls.{step_checks, step_call, record_or};
ghost use Rattle.set_places.specs.Given.{inputs_in};
ghost use Rattle.call_lengths.specs.Lengths.{WorkHas};
ghost use Rattle.call_lengths.specs.Lent.{work_of, store_of_areas, kept_in};
ghost use Rattle.call_lengths.specs.Same.{SameWork, SameStore};

use base_model::{Limits, Record, Refusal};
use call_checks::ask;
use call_lengths::{Kept, Store, Work, WorkLengths};
use route_table::table_fits;
use set_places::Given;

// The checks of a step: those of begin but 7, 8 and 9, then 14, 15 and 16.
fn step_checks(
    given: &Given<'_>,
    limits: Limits,
    rec: Record,
    work: WorkLengths,
    kept: &Kept<'_, '_>,
) -> Result<(), Refusal>
    ensures { (w : areas.Work) → WorkHas w work
        → reply_of result ≡ first (step_checks (inputs_in given.now) limits rec w (kept_in kept.now)) }
{
    let places = call_checks::place_count(given.places.numbers.len(), given.places.edges.len());
    call_checks::begin_checks(given, limits, places, work, kept.lengths())?;
    call_checks::check_places(given.query.window, &given.places)?;
    ask(
        call_record::record_fits(given, limits, rec, kept),
        Refusal::RecordInvalid,
    )
}

// A step by n: n sets are evaluated, or the search stops. On a refusal nothing is written.
pub fn step(
    given: &Given<'_>,
    limits: Limits,
    steps: &[i32],
    rec: Record,
    n: u32,
    work: &mut Work<'_>,
    store: &mut Store<'_>,
) -> Result<Record, Refusal>
    ensures call { step_call steps.now (inputs_in given.now) limits rec n (work_of work.old) (store_of_areas store.old)
        ≡ record {
          answer = reply_of result;
          rec = record_or rec result;
          work = work_of work.new;
          store = store_of_areas store.new;
        } }
    ensures same_work { SameWork work.old work.new }
    ensures same_store { SameStore store.old store.new }
{
    ask(table_fits(steps), Refusal::StepsInvalid)?;
    // A return of its own: must-fail/refusal_told_as_done.edit changes it.
    if let Err(refusal) = step_checks(given, limits, rec, work.lengths(), &store.kept()) {
        return Err(refusal);
    }
    Ok(call_portions::step_checked(given, limits, steps, rec, n, work, store))
}
