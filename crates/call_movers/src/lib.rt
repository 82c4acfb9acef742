// The last checks of begin: refusals 7, 8 and 9 for both movers, then 14 and 15.
#![tactic(auto)]

ghost use Rattle.std.specs.Prelude.{◌≡◌, true, ◌++◌, length};
ghost use Rattle.base_model.specs.Answers.{first, reply_of};
ghost use Rattle.rule_routes.specs.Edges.{steps_of};
ghost use Rattle.rule_layouts.specs.Inputs.{Inputs, board_of};
ghost use Rattle.rule_calls.specs.Checks.{place_checks};
ghost use Rattle.rule_calls.specs.Calls.{both_routes};
ghost use Rattle.set_places.specs.Given.{inputs_in};
ghost use Rattle.ground_rects.specs.Windows.{centres};
ghost use Rattle.call_lengths.specs.Lent.{work_of};
ghost use Rattle.call_checks.specs.Parts.{allow_long};
ghost use Rattle.call_movers.specs.Movers.{allow_passage, Swept, Movable, Bases};
ghost use Rattle.call_lengths.specs.Same.{SameWork};

use base_model::{Query, Refusal};
use call_lengths::Work;
use call_passage::check_passage;
use set_places::Given;

// 7, 8 and 9 for the allowed mover, if there is one. The working areas are zero before and after.
fn check_allowed(
    query: Query,
    base: &[u8],
    steps: &[i32],
    work: &mut Work<'_>,
) -> Result<(), Refusal>
    requires { Swept query work.old.queue.now work.old.predecessors.now work.old.route.now
        × (allow_long (centres query.window) query.allow (length base.now) ≡ true) }
    ensures result_value { reply_of result ≡ allow_passage (steps_of steps.now) query base.now }
    ensures work_unchanged { work_of work.new ≡ work_of work.old }
    ensures same_work { SameWork work.old work.new }
{
    if query.allow.is_none() {
        return Ok(());
    }
    check_passage(base, query.window, query.start, query.end, steps, work)
}

// 7, 8 and 9 for the blocked mover, then for the allowed. The working areas are zero before and after.
fn check_routes(given: &Given<'_>, steps: &[i32], work: &mut Work<'_>) -> Result<(), Refusal>
    requires { Movable given.now.query given.now.block_base.now given.now.allow_base.now
        work.old.queue.now work.old.predecessors.now work.old.route.now }
    ensures result_value { (i : Inputs) → Bases i given.now.query given.now.block_base.now given.now.allow_base.now
        → reply_of result ≡ first (both_routes (board_of (steps_of steps.now) i)) }
    ensures work_unchanged { work_of work.new ≡ work_of work.old }
    ensures same_work { SameWork work.old work.new }
{
    let query = given.query;
    check_passage(
        given.block_base,
        query.window,
        query.start,
        query.end,
        steps,
        work,
    )?;
    check_allowed(query, given.allow_base, steps, work)
}

// 7, 8 and 9 for both movers, then 14 and 15. The working areas are zero before and after.
pub fn late_checks(given: &Given<'_>, steps: &[i32], work: &mut Work<'_>) -> Result<(), Refusal>
    requires { Movable given.now.query given.now.block_base.now given.now.allow_base.now
        work.old.queue.now work.old.predecessors.now work.old.route.now }
    ensures result_value { reply_of result ≡ first
        (both_routes (board_of (steps_of steps.now) (inputs_in given.now)) ++ place_checks (inputs_in given.now)) }
    ensures work_unchanged { work_of work.new ≡ work_of work.old }
    ensures same_work { SameWork work.old work.new }
{
    // Both answers: must-fail/placements_before_routes.edit exchanges them.
    let passed = check_routes(given, steps, work);
    let placed = call_checks::check_places(given.query.window, &given.places);
    passed.and(placed)
}
