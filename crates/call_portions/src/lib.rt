// A step whose checks have passed: unused entries cleared, then n portions of one evaluation each.
#![tactic(auto)]

ghost use Rattle.std.specs.Prelude.{◌≡◌, true};
ghost use Rattle.std.proofs.Math.Option.{none};
ghost use Rattle.base_model.specs.Answers.{first};
ghost use Rattle.ground_rects.specs.Windows.{centres};
ghost use Rattle.rule_routes.specs.Edges.{steps_of, each_once};
ghost use Rattle.rule_calls.specs.Calls.{step_checks, step_over};
ghost use Rattle.set_places.specs.Given.{inputs_in};
ghost use Rattle.set_board.specs.Ready.{Blank};
ghost use Rattle.call_lengths.specs.Lent.{work_of, store_of_areas};
ghost use Rattle.search_steps.specs.Terms.{terms_of, HoldsSome};
ghost use Rattle.search_steps.specs.Turned.{StepsTo};
ghost use Rattle.call_portions.specs.Ground.{accepted, WorkClear};
ghost use Rattle.call_lengths.specs.Same.{SameWork, SameStore};

use base_model::{Limits, Record};
use call_lengths::{Store, Work};
use set_pass::Areas;
use set_places::Given;

// n portions in areas that are as long as the window has centres, and zero.
fn portions_in(
    given: &Given<'_>,
    limits: Limits,
    steps: &[i32],
    rec: Record,
    n: u32,
    map: &mut [u8],
    queue: &mut [u32],
    predecessors: &mut [u32],
    route: &mut [u32],
    store: &mut Store<'_>,
) -> Record
    requires holds_some { HoldsSome (terms_of given.now steps.now limits) rec (store_of_areas store.old) }
    requires blank { Blank (centres given.now.query.window) map.old queue.old predecessors.old route.old }
    ensures steps_to { StepsTo (terms_of given.now steps.now limits) n rec (store_of_areas store.old) result (store_of_areas store.new) }
    ensures blank_2 { Blank (centres given.now.query.window) map.new queue.new predecessors.new route.new }
    ensures same_store { SameStore store.old store.new }
{
    let mut areas = Areas {
        map,
        queue,
        predecessors,
        route,
    };
    search_steps::steps(given, limits, steps, rec, n, &mut areas, store)
}

// n portions on whole areas, of which the working areas are zero up to their lengths.
fn portions(
    given: &Given<'_>,
    limits: Limits,
    steps: &[i32],
    rec: Record,
    n: u32,
    work: &mut Work<'_>,
    store: &mut Store<'_>,
) -> Record
    requires holds_some { HoldsSome (terms_of given.now steps.now limits) rec (store_of_areas store.old) }
    requires work_clear { WorkClear (centres given.now.query.window) work.old.map.now work.old.queue.now work.old.predecessors.now
        work.old.route.now }
    ensures steps_to { StepsTo (terms_of given.now steps.now limits) n rec (store_of_areas store.old) result (store_of_areas store.new) }
    ensures work_kept { work_of work.new ≡ work_of work.old }
    ensures same_work { SameWork work.old work.new }
    ensures same_store { SameStore store.old store.new }
{
    let c = call_lengths::centres(given.query.window);
    let map = &mut *work.map;
    let queue = &mut *work.queue;
    let predecessors = &mut *work.predecessors;
    let route = &mut *work.route;
    portions_in(
        given,
        limits,
        steps,
        rec,
        n,
        &mut map[..c],
        &mut queue[..c],
        &mut predecessors[..c],
        &mut route[..c],
        store,
    )
}

// A step whose checks have passed.
pub fn step_checked(
    given: &Given<'_>,
    limits: Limits,
    steps: &[i32],
    rec: Record,
    n: u32,
    work: &mut Work<'_>,
    store: &mut Store<'_>,
) -> Record
    requires points_value { first (step_checks (inputs_in given.now) limits rec (work_of work.old) (store_of_areas store.old)) ≡ none }
    requires steps_value { each_once (steps_of steps.now) ≡ true }
    ensures call { step_over (steps_of steps.now) (inputs_in given.now) limits rec n (work_of work.old) (store_of_areas store.old)
        ≡ accepted result (work_of work.new) (store_of_areas store.new) }
    ensures same_work { SameWork work.old work.new }
    ensures same_store { SameStore store.old store.new }
{
    call_clear::clear_work(given.query.window, work);
    let tidy = search_tidy::clear_unused(given.query, limits, rec, store);
    portions(given, limits, steps, tidy, n, work, store)
}
