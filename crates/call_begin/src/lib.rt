// Beginning a search.
#![tactic(auto)]

ghost use Rattle.std.specs.Prelude.{◌≡◌};
ghost use Rattle.std.proofs.Math.Option.{none};
ghost use Rattle.base_model.specs.Answers.{first, reply_of};
ghost use Rattle.rule_routes.specs.Edges.{steps_of};
ghost use Rattle.rule_search.specs.Frames.{begun};
ghost use Rattle.rule_calls.specs.Areas.{record_of};
ghost use Rattle.rule_calls.specs.Calls.{no_record, record_or, begin_checks, begin_over, begin_call};
ghost use Rattle.set_places.specs.Given.{inputs_in};
ghost use Rattle.call_lengths.specs.Lent.{work_of, store_of_areas};
ghost use Rattle.call_lengths.specs.Same.{SameWork, SameStore};

use base_model::{Limits, RUNNING, Record, Refusal, fresh_record, no_record};
use call_checks::ask;
use call_lengths::{Store, Work};
use route_table::table_fits;
use set_places::Given;

// The record of a search that has begun: running, with the empty set pending.
fn begun_record(places: u32) -> Record
    ensures { result ≡ record_of places begun }
{
    fresh_record(RUNNING, places, true)
}

// What `begin` does once its first checks pass: clears the working areas, looks at 7 to 9, 14 and 15, then clears the areas of a search.
fn begin_checked(
    given: &Given<'_>,
    limits: Limits,
    steps: &[i32],
    work: &mut Work<'_>,
    store: &mut Store<'_>,
) -> Result<Record, Refusal>
    requires { first (begin_checks (inputs_in given.now) limits (work_of work.old) (store_of_areas store.old)) ≡ none }
    ensures call { begin_over (steps_of steps.now) (inputs_in given.now) limits (work_of work.old) (store_of_areas store.old)
        ≡ record {
          answer = reply_of result;
          rec = record_or no_record result;
          work = work_of work.new;
          store = store_of_areas store.new;
        } }
    ensures same_work { SameWork work.old work.new }
    ensures same_store { SameStore store.old store.new }
{
    call_clear::clear_work(given.query.window, work);
    call_movers::late_checks(given, steps, work)?;
    let places = call_checks::place_count(given.places.numbers.len(), given.places.edges.len());
    call_clear::clear_store(given.query, limits, places, store);
    Ok(begun_record(places as u32))
}

// Begins a search: its record, and its areas zero up to their lengths. Refuses 19, 10, 11, 12, 2, 3, 4, 6, then 7, 8, 9 for the blocked
// mover and for the allowed, then 14, 15. The first eight write nothing; the others leave the working areas zero up to their lengths.
pub fn begin(
    given: &Given<'_>,
    limits: Limits,
    steps: &[i32],
    work: &mut Work<'_>,
    store: &mut Store<'_>,
) -> Result<Record, Refusal>
    ensures call { begin_call steps.now (inputs_in given.now) limits (work_of work.old) (store_of_areas store.old)
        ≡ record {
          answer = reply_of result;
          rec = record_or no_record result;
          work = work_of work.new;
          store = store_of_areas store.new;
        } }
    ensures same_work { SameWork work.old work.new }
    ensures same_store { SameStore store.old store.new }
{
    ask(table_fits(steps), Refusal::StepsInvalid)?;
    let places = call_checks::place_count(given.places.numbers.len(), given.places.edges.len());
    call_checks::begin_checks(given, limits, places, work.lengths(), store.lengths())?;
    begin_checked(given, limits, steps, work, store)
}

// The record that a beginning hands back: the begun search's, and where it was refused that of no search, all zero.
#[tactic(auto, unfolding(rule_calls::specs::Calls::record_or, rule_calls::specs::Calls::no_record, base_model::specs::Records::fresh_record))]
pub fn record_or_none(begun: Result<Record, Refusal>) -> Record
    ensures { result ≡ record_or no_record begun }
{
    match begun {
        Ok(rec) => rec,
        Err(_) => no_record(),
    }
}
