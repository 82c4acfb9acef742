// Judging a selection of placements.
#![tactic(auto)]

ghost use Rattle.std.specs.Prelude.{◌≡◌, true, ◌/◌, length};
ghost use Rattle.std.proofs.Math.Option.{none};
ghost use Rattle.base_model.specs.Answers.{first, reply_of};
ghost use Rattle.ground_rects.specs.Windows.{centres};
ghost use Rattle.rule_routes.specs.Edges.{steps_of, each_once};
ghost use Rattle.rule_layouts.specs.Inputs.{board_of};
ghost use Rattle.rule_layouts.specs.Judge.{verdict, ground_left};
ghost use Rattle.rule_calls.specs.Areas as areas;
ghost use Rattle.rule_calls.specs.Calls.{judges, judgement_of, selection_fits, judge_checks, judge_over, judge_call};
ghost use Rattle.set_places.specs.Given.{inputs_in};
ghost use Rattle.call_lengths.specs.Lengths.{WorkHas};
ghost use Rattle.call_lengths.specs.Lent.{work_of};
ghost use Rattle.set_board.specs.Ready.{ReadyFor, Blank};
ghost use Rattle.call_judge.specs.Clean.{Clean};
ghost use Rattle.call_lengths.specs.Same.{SameWork};

use base_model::{Judged, Refusal, SLOTS};
use call_checks::ask;
use call_lengths::{Work, WorkLengths};
use call_rows::members_fit;
use route_table::table_fits;
use set_ground::ground_left;
use set_pass::Areas;
use set_places::Given;
use set_verdict::verdict;

// Whether the selection ascends strictly, has at most 6 members and names some of n placements.
#[tactic(auto, unfolding(rule_calls::specs::Calls::selection_fits))]
fn selection_fits(selection: &[u16], n: usize) -> bool
    ensures { result ≡ selection_fits n selection.now }
{
    selection.len() <= SLOTS && members_fit(selection, n)
}

// 10, 2, 3, 4, 6, 14, 15 and 17, for working areas of these lengths.
fn judge_checks(given: &Given<'_>, selection: &[u16], room: WorkLengths) -> Result<(), Refusal>
    ensures { (w : areas.Work) → WorkHas w room → reply_of result ≡ first (judge_checks (inputs_in given.now) selection.now w) }
{
    let window = given.query.window;
    call_checks::check_groups(given.places.groups)?;
    call_checks::check_query(given.query)?;
    call_checks::check_areas(given, call_lengths::work_fits(window, room))?;
    call_checks::check_places(window, &given.places)?;
    let count = call_checks::place_count(given.places.numbers.len(), given.places.edges.len());
    ask(selection_fits(selection, count), Refusal::SelectionInvalid)
}

// The verdict on a selection, and the ground that it leaves. The areas are zero before and after.
fn judged(
    given: &Given<'_>,
    steps: &[i32],
    selection: &[u16],
    map: &mut [u8],
    queue: &mut [u32],
    predecessors: &mut [u32],
    route: &mut [u32],
) -> Judged
    requires ready { ReadyFor given.now steps.now selection.now (length given.now.places.numbers.now / 4) }
    requires blank { Blank (centres given.now.query.window) map.old queue.old predecessors.old route.old }
    ensures verdict_value { result.verdict ≡ verdict (board_of (steps_of steps.now) (inputs_in given.now)) selection.now }
    ensures ground_value { result.ground ≡ ground_left (board_of (steps_of steps.now) (inputs_in given.now)) selection.now }
    ensures blank_2 { Blank (centres given.now.query.window) map.new queue.new predecessors.new route.new }
{
    let mut areas = Areas {
        map,
        queue,
        predecessors,
        route,
    };
    let verdict = verdict(given, steps, selection, &mut areas);
    let ground = ground_left(given, selection, &mut areas);
    Judged { verdict, ground }
}

// The same in working areas that are cleared and may be longer than the window has centres.
fn judged_in(given: &Given<'_>, steps: &[i32], selection: &[u16], work: &mut Work<'_>) -> Judged
    requires ready { ReadyFor given.now steps.now selection.now (length given.now.places.numbers.now / 4) }
    requires clean { Clean (centres given.now.query.window) work.old.map.now work.old.queue.now work.old.predecessors.now
        work.old.route.now }
    ensures verdict_value { result.verdict ≡ verdict (board_of (steps_of steps.now) (inputs_in given.now)) selection.now }
    ensures ground_value { result.ground ≡ ground_left (board_of (steps_of steps.now) (inputs_in given.now)) selection.now }
    ensures same { work_of work.new ≡ work_of work.old }
    ensures same_work { SameWork work.old work.new }
{
    let c = call_lengths::centres(given.query.window);
    let map = &mut *work.map;
    let queue = &mut *work.queue;
    let predecessors = &mut *work.predecessors;
    let route = &mut *work.route;
    judged(
        given,
        steps,
        selection,
        &mut map[..c],
        &mut queue[..c],
        &mut predecessors[..c],
        &mut route[..c],
    )
}

// What `judge` does once the checks pass.
fn judge_checked(given: &Given<'_>, steps: &[i32], selection: &[u16], work: &mut Work<'_>) -> Judged
    requires route_value { first (judge_checks (inputs_in given.now) selection.now (work_of work.old)) ≡ none }
    requires steps_value { each_once (steps_of steps.now) ≡ true }
    ensures call { judge_over (steps_of steps.now) (inputs_in given.now) selection.now (work_of work.old)
        ≡ record { answer = judges result.verdict result.ground; work = work_of work.new } }
    ensures same_work { SameWork work.old work.new }
{
    call_clear::clear_work(given.query.window, work);
    judged_in(given, steps, selection, work)
}

// Judges a selection: the first verdict that holds, and the number of centres to which the blocked mover has a route from the start.
// Refuses 19, 10, 2, 3, 4, 6, 14, 15 and 17, and then writes nothing. Accepted, it leaves the working areas zero up to their lengths.
pub fn judge(
    given: &Given<'_>,
    steps: &[i32],
    selection: &[u16],
    work: &mut Work<'_>,
) -> Result<Judged, Refusal>
    ensures call { judge_call steps.now (inputs_in given.now) selection.now (work_of work.old)
        ≡ record { answer = judgement_of result; work = work_of work.new } }
    ensures same_work { SameWork work.old work.new }
{
    ask(table_fits(steps), Refusal::StepsInvalid)?;
    judge_checks(given, selection, work.lengths())?;
    Ok(judge_checked(given, steps, selection, work))
}
