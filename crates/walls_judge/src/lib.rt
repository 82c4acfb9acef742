// The call judge (RULES 7.7), the placements lent as a row of records.
#![tactic(auto)]

ghost use Rattle.std.specs.Prelude.{◌≡◌};
ghost use Rattle.rule_calls.specs.Calls.{judge_call, judgement_of};
ghost use Rattle.call_lengths.specs.Lent.{work_of};
ghost use Rattle.walls_lent.specs.Plans.{given_in};
ghost use Rattle.call_lengths.specs.Same.{SameWork};

use base_model::{Judged, Refusal};
use call_lengths::Work;
use walls_flat::rows_of;
use walls_lent::Plan;

// Judges a selection of placements, and counts the ground left: the centres to which the blocked mover has a route from the start.
pub fn judge(
    plan: &Plan<'_>,
    steps: &[i32],
    selection: &[u16],
    work: &mut Work<'_>,
) -> Result<Judged, Refusal>
    ensures call { judge_call steps.now (given_in plan.now) selection.now (work_of work.old)
        ≡ record { answer = judgement_of result; work = work_of work.new } }
    ensures same_work { SameWork work.old work.new }
{
    let rows = rows_of(plan.places);
    let given = plan.flat(&rows);
    call_judge::judge(&given, steps, selection, work)
}
