// The calls on a search whose record is fifty numbers, what they answer told as numbers.
#![tactic(auto)]

ghost use Rattle.std.specs.Prelude.{◌≡◌};
ghost use Rattle.rule_calls.specs.Areas.{work_in, store_in};
ghost use Rattle.rule_calls.specs.Calls.{begin_call, step_call, no_record, record_or};
ghost use Rattle.base_model.specs.Answers.{reply_of};
ghost use Rattle.set_places.specs.Given.{inputs_in};
ghost use Rattle.call_lengths.specs.Lent.{kept_in};
ghost use Rattle.walls_numbers.specs.Left.{begin_on, step_on, read_on};

use base_model::{Limits, Record, Refusal};
use call_lengths::{Kept, Store, Work};
use set_places::Given;

// Begins a search, its areas taken together.
fn begin_in(
    given: &Given<'_>,
    limits: Limits,
    steps: &[i32],
    counts: &mut [i32],
    map: &mut [u8],
    queue: &mut [u32],
    predecessors: &mut [u32],
    route: &mut [u32],
    lists: &mut [u16],
    visited: &mut [u16],
    layouts: &mut [u16],
    points: &mut [u32],
) -> Result<Record, Refusal>
    ensures { begin_call steps.now (inputs_in given.now) limits (work_in counts.old map.old queue.old predecessors.old route.old)
        (store_in lists.old visited.old layouts.old points.old)
        ≡ record {
          answer = reply_of result;
          rec = record_or no_record result;
          work = work_in counts.new map.new queue.new predecessors.new route.new;
          store = store_in lists.new visited.new layouts.new points.new;
        } }
{
    let mut work = Work {
        counts,
        map,
        queue,
        predecessors,
        route,
    };
    let mut store = Store {
        lists,
        visited,
        layouts,
        points,
    };
    call_begin::begin(given, limits, steps, &mut work, &mut store)
}

// Begins a search, its record laid as numbers.
pub fn begin_on(
    given: &Given<'_>,
    limits: Limits,
    steps: &[i32],
    rec: &mut [u32],
    counts: &mut [i32],
    map: &mut [u8],
    queue: &mut [u32],
    predecessors: &mut [u32],
    route: &mut [u32],
    lists: &mut [u16],
    visited: &mut [u16],
    layouts: &mut [u16],
    points: &mut [u32],
    index: &mut u32,
) -> u32
    ensures { begin_on steps.now (inputs_in given.now) limits rec.old (work_in counts.old map.old queue.old predecessors.old route.old)
        (store_in lists.old visited.old layouts.old points.old)
        ≡ record {
          answer = result;
          index = index.new;
          numbers = rec.new;
          work = work_in counts.new map.new queue.new predecessors.new route.new;
          store = store_in lists.new visited.new layouts.new points.new;
        } }
{
    let room = walls_given::visited_lent(visited.len(), rec.len());
    let reply = begin_in(
        given,
        limits,
        steps,
        counts,
        map,
        queue,
        predecessors,
        route,
        lists,
        &mut visited[..room],
        layouts,
        points,
    );
    walls_told::tell(rec, reply, index)
}

// Steps a search, its areas taken together.
fn step_in(
    given: &Given<'_>,
    limits: Limits,
    steps: &[i32],
    rec: Record,
    n: u32,
    counts: &mut [i32],
    map: &mut [u8],
    queue: &mut [u32],
    predecessors: &mut [u32],
    route: &mut [u32],
    lists: &mut [u16],
    visited: &mut [u16],
    layouts: &mut [u16],
    points: &mut [u32],
) -> Result<Record, Refusal>
    ensures { step_call steps.now (inputs_in given.now) limits rec n (work_in counts.old map.old queue.old predecessors.old route.old)
        (store_in lists.old visited.old layouts.old points.old)
        ≡ record {
          answer = reply_of result;
          rec = record_or rec result;
          work = work_in counts.new map.new queue.new predecessors.new route.new;
          store = store_in lists.new visited.new layouts.new points.new;
        } }
{
    let mut work = Work {
        counts,
        map,
        queue,
        predecessors,
        route,
    };
    let mut store = Store {
        lists,
        visited,
        layouts,
        points,
    };
    call_step::step(given, limits, steps, rec, n, &mut work, &mut store)
}

// Steps a search whose record is numbers.
pub fn step_on(
    given: &Given<'_>,
    limits: Limits,
    steps: &[i32],
    rec: &mut [u32],
    n: u32,
    counts: &mut [i32],
    map: &mut [u8],
    queue: &mut [u32],
    predecessors: &mut [u32],
    route: &mut [u32],
    lists: &mut [u16],
    visited: &mut [u16],
    layouts: &mut [u16],
    points: &mut [u32],
    index: &mut u32,
) -> u32
    ensures { step_on steps.now (inputs_in given.now) limits rec.old n (work_in counts.old map.old queue.old predecessors.old route.old)
        (store_in lists.old visited.old layouts.old points.old)
        ≡ record {
          answer = result;
          index = index.new;
          numbers = rec.new;
          work = work_in counts.new map.new queue.new predecessors.new route.new;
          store = store_in lists.new visited.new layouts.new points.new;
        } }
{
    let room = walls_given::visited_lent(visited.len(), rec.len());
    let held = walls_record::record_in(rec);
    let reply = step_in(
        given,
        limits,
        steps,
        held,
        n,
        counts,
        map,
        queue,
        predecessors,
        route,
        lists,
        &mut visited[..room],
        layouts,
        points,
    );
    walls_told::tell(rec, reply, index)
}

// Tells where layout k's route stands, of a search whose record is numbers.
pub fn read_on(
    given: &Given<'_>,
    limits: Limits,
    rec: &[u32],
    k: u32,
    kept: &Kept<'_, '_>,
    index: &mut u32,
    first: &mut u32,
    count: &mut u32,
) -> u32
    ensures { read_on (inputs_in given.now) limits rec.now k (kept_in kept.now)
        ≡ record {
          answer = result;
          index = index.new;
          first = first.new;
          count = count.new;
        } }
{
    let room = walls_given::visited_lent(kept.visited.len(), rec.len());
    let held = walls_record::record_in(rec);
    let lent = Kept {
        lists: kept.lists,
        visited: &kept.visited[..room],
        layouts: kept.layouts,
        points: kept.points,
    };
    let answer = call_read::read_checks(given, limits, held, k, &lent);
    *index = walls_told::index_of(&answer);
    if let Err(refusal) = answer {
        *first = 0;
        *count = 0;
        return u32::from(refusal);
    }
    *first = walls_told::first_point(held, k);
    *count = walls_told::point_count(held, k);
    0
}
