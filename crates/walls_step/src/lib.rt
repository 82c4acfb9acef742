// The call step (RULES 7.5), the placements lent as a row of records, the search record lent.
#![tactic(auto)]

ghost use Rattle.std.specs.Prelude.{◌≡◌};
ghost use Rattle.base_model.specs.Answers.{reply_of};
ghost use Rattle.rule_calls.specs.Areas.{store_in};
ghost use Rattle.rule_calls.specs.Calls.{step_call, record_or};
ghost use Rattle.set_places.specs.Given.{inputs_in};
ghost use Rattle.call_lengths.specs.Lent.{work_of, store_of_areas};
ghost use Rattle.walls_lent.specs.Plans.{given_in};
ghost use Rattle.call_lengths.specs.Same.{SameWork, SameStore};

use base_model::{Limits, Record, Refusal};
use call_lengths::{Store, Work};
use set_places::Given;
use walls_flat::rows_of;
use walls_lent::{Plan, lists_lent};

// Steps over the placements laid flat, in the parts of the areas that are lent on, the search record by value.
fn step_flat(
    given: &Given<'_>,
    limits: Limits,
    steps: &[i32],
    rec: Record,
    n: u32,
    work: &mut Work<'_>,
    lists: &mut [u16],
    visited: &mut [u16],
    layouts: &mut [u16],
    points: &mut [u32],
) -> Result<Record, Refusal>
    ensures call { step_call steps.now (inputs_in given.now) limits rec n (work_of work.old)
        (store_in lists.old visited.old layouts.old points.old)
        ≡ record {
          answer = reply_of result;
          rec = record_or rec result;
          work = work_of work.new;
          store = store_in lists.new visited.new layouts.new points.new;
        } }
    ensures same_work { SameWork work.old work.new }
{
    let mut store = Store {
        lists,
        visited,
        layouts,
        points,
    };
    call_step::step(given, limits, steps, rec, n, work, &mut store)
}

// Evaluates n sets more, or stops. The search record is altered here alone.
pub fn step(
    plan: &Plan<'_>,
    limits: Limits,
    steps: &[i32],
    rec: &mut Record,
    n: u32,
    work: &mut Work<'_>,
    store: &mut Store<'_>,
) -> Result<(), Refusal>
    ensures call { step_call steps.now (given_in plan.now) limits rec.old n (work_of work.old) (store_of_areas store.old)
        ≡ record {
          answer = reply_of result;
          rec = rec.new;
          work = work_of work.new;
          store = store_of_areas store.new;
        } }
    ensures same_work { SameWork work.old work.new }
    ensures same_store { SameStore store.old store.new }
{
    let rows = rows_of(plan.places);
    let given = plan.flat(&rows);
    let part = lists_lent(store.lists.len(), plan.places.len());
    let lists = &mut *store.lists;
    let visited = &mut *store.visited;
    let layouts = &mut *store.layouts;
    let points = &mut *store.points;
    match step_flat(
        &given,
        limits,
        steps,
        *rec,
        n,
        work,
        &mut lists[..part],
        visited,
        layouts,
        points,
    ) {
        Ok(after) => {
            *rec = after;
            Ok(())
        }
        Err(refusal) => Err(refusal),
    }
}
