// Whether a mover passes from end to end over its baseline alone.
#![tactic(auto)]

ghost use Rattle.std.specs.Prelude.{◌≡◌};
ghost use Rattle.base_model.specs.Answers.{reply_of};
ghost use Rattle.rule_routes.specs.Edges.{steps_of};
ghost use Rattle.call_lengths.specs.Lent.{work_of};
ghost use Rattle.call_passage.specs.Passages.{passage_over, PassageReady};
ghost use Rattle.call_lengths.specs.Same.{SameWork};

use base_model::{Position, Rect, Refusal};
use call_lengths::Work;
use ground_centres::centre_at;
use route_step::Grid;

// Refuses a blocked start, a blocked end, and ground without a route. The working areas are as they were, those of a search zero.
pub fn check_passage(
    base: &[u8],
    window: Rect,
    start: Position,
    end: Position,
    steps: &[i32],
    work: &mut Work<'_>,
) -> Result<(), Refusal>
    requires { PassageReady window start end base.now work.old.queue.now work.old.predecessors.now work.old.route.now }
    ensures result_value { reply_of result ≡ passage_over (steps_of steps.now) window start end base.now }
    ensures work_unchanged { work_of work.new ≡ work_of work.old }
    ensures same_work { SameWork work.old work.new }
{
    let from = centre_at(window, start);
    let to = centre_at(window, end);
    if base[from] != 0 {
        return Err(Refusal::StartBlocked);
    }
    if base[to] != 0 {
        return Err(Refusal::EndBlocked);
    }
    let grid = Grid {
        map: base,
        width: ground_rects::width(window),
        height: ground_rects::height(window),
    };
    let Some(n) = route_find::route(
        &grid,
        steps,
        from,
        to,
        work.queue,
        work.predecessors,
        work.route,
    ) else {
        return Err(Refusal::NoRoute);
    };
    base_areas::clear(work.route, n, 0);
    Ok(())
}
