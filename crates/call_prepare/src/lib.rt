// Preparing a mover: its baseline from terrain and obstacles, and whether it passes from start to end.
#![tactic(auto)]

ghost use Rattle.std.specs.Prelude.{◌≡◌, List, ℕ, length};
ghost use Rattle.std.proofs.Math.Option.{none};
ghost use Rattle.base_model.specs.Answers.{first, reply_of};
ghost use Rattle.rule_routes.specs.Edges.{steps_of};
ghost use Rattle.rule_calls.specs.Areas as areas;
ghost use Rattle.rule_calls.specs.Calls.{prepare_checks, prepare_over, prepare_call};
ghost use Rattle.call_lengths.specs.Lengths.{WorkHas};
ghost use Rattle.call_lengths.specs.Lent.{work_of};
ghost use Rattle.call_prepare.specs.Prepare.{preparation_in};
ghost use Rattle.call_lengths.specs.Same.{SameWork};

use base_model::{Bounds, CELL, Position, Rect, Refusal};
use call_checks::ask;
use call_lengths::{Work, WorkLengths};
use ground_baseline::Cells;
use ground_rects::in_window;
use route_table::table_fits;

// What is asked: the map's cells and obstacles, a window with its ends, and a mover.
#[derive(Clone, Copy)]
pub struct Preparing<'a> {
    pub across: u32,
    pub down: u32,
    pub cells: &'a [u8],
    pub obstacles: &'a [i32],
    pub window: Rect,
    pub start: Position,
    pub end: Position,
    pub mover: Bounds,
}

// Refusals 1 to 6, for areas of these lengths.
fn prepare_checks(asked: &Preparing<'_>, baseline: usize, room: WorkLengths) -> Result<(), Refusal>
    ensures { (b : List ℕ) (a : areas.Work) → length b ≡ baseline → WorkHas a room
        → reply_of result ≡ first (prepare_checks (preparation_in asked.now) b a) }
{
    let window = asked.window;
    let map = Cells {
        across: asked.across,
        down: asked.down,
        cells: asked.cells,
    };
    let mapped = ground_baseline::map_fits(&map);
    ask(mapped, Refusal::MapInvalid)?;
    let wide = ground_rects::window_fits(window, CELL * asked.across, CELL * asked.down);
    ask(wide, Refusal::WindowInvalid)?;
    let ends = in_window(window, asked.start) && in_window(window, asked.end);
    ask(ends, Refusal::EndOutside)?;
    ask(ground_rects::small(asked.mover), Refusal::BoundTooLarge)?;
    let filled = ground_baseline::obstacles_fit(asked.obstacles);
    ask(filled, Refusal::ObstacleInvalid)?;
    let long = call_lengths::centres(window) <= baseline && call_lengths::work_fits(window, room);
    ask(long, Refusal::AreaTooShort)
}

// What `prepare` does once 1 to 6 pass: marks the baseline, then looks at 7 to 9 over it.
fn prepare_checked(
    asked: &Preparing<'_>,
    steps: &[i32],
    baseline: &mut [u8],
    work: &mut Work<'_>,
) -> Result<(), Refusal>
    requires { first (prepare_checks (preparation_in asked.now) baseline.old (work_of work.old)) ≡ none }
    ensures call { prepare_over (steps_of steps.now) (preparation_in asked.now) baseline.old (work_of work.old)
        ≡ record { answer = reply_of result; baseline = baseline.new; work = work_of work.new } }
    ensures same_work { SameWork work.old work.new }
{
    let window = asked.window;
    let c = call_lengths::centres(window);
    base_areas::clear(work.map, c, 0);
    base_areas::clear(work.queue, c, 0);
    base_areas::clear(work.predecessors, c, 0);
    base_areas::clear(work.route, c, 0);
    // this leaves the counts zero
    let map = Cells {
        across: asked.across,
        down: asked.down,
        cells: asked.cells,
    };
    ground_baseline::mark_baseline(
        &map,
        asked.obstacles,
        window,
        asked.mover,
        work.counts,
        baseline,
    );
    let answer = call_passage::check_passage(
        &baseline[..c],
        window,
        asked.start,
        asked.end,
        steps,
        work,
    );
    if answer.is_err() {
        base_areas::clear(baseline, c, 0);
    }
    answer
}

// Prepares a mover from terrain and obstacles: marks its baseline over the window, and looks whether it passes from start to end.
// Refuses 19, then 1 to 9. Refusals 19 and 1 to 6 write nothing; 7 to 9 leave the baseline and the working areas zero up to their lengths.
pub fn prepare(
    asked: &Preparing<'_>,
    steps: &[i32],
    baseline: &mut [u8],
    work: &mut Work<'_>,
) -> Result<(), Refusal>
    ensures call { prepare_call steps.now (preparation_in asked.now) baseline.old (work_of work.old)
        ≡ record { answer = reply_of result; baseline = baseline.new; work = work_of work.new } }
    ensures same_work { SameWork work.old work.new }
{
    ask(table_fits(steps), Refusal::StepsInvalid)?;
    prepare_checks(asked, baseline.len(), work.lengths())?;
    prepare_checked(asked, steps, baseline, work)
}
