// The call read (RULES 7.6), the placements lent as a row of records.
#![tactic(auto)]

ghost use Rattle.std.specs.Prelude.{◌≡◌};
ghost use Rattle.base_model.specs.Answers.{reply_of};
ghost use Rattle.rule_calls.specs.Calls.{read_call};
ghost use Rattle.call_lengths.specs.Lent.{kept_in};
ghost use Rattle.call_read.specs.Told.{points_in, told, number_in, index_in};
ghost use Rattle.walls_lent.specs.Plans.{given_in};

use base_model::{Limits, Record, Refusal};
use call_lengths::Kept;
use walls_flat::rows_of;
use walls_lent::{Plan, lists_lent};

// Hands back layout k's allowed route, a part of the points area.
pub fn read<'p>(
    plan: &Plan<'_>,
    limits: Limits,
    rec: Record,
    k: u32,
    kept: &Kept<'_, 'p>,
) -> Result<&'p [u32], Refusal>
    ensures call { read_call (given_in plan.now) limits rec k (kept_in kept.now)
        ≡ record { answer = reply_of result; points = points_in result } }
    ensures numbers { told (read_call (given_in plan.now) limits rec k (kept_in kept.now))
        ≡ record { points = points_in result; answer = number_in (reply_of result); index = index_in (reply_of result) } }
{
    let rows = rows_of(plan.places);
    let given = plan.flat(&rows);
    let part = lists_lent(kept.lists.len(), plan.places.len());
    let lent = Kept {
        lists: &kept.lists[..part],
        visited: kept.visited,
        layouts: kept.layouts,
        points: kept.points,
    };
    call_read::read(&given, limits, rec, k, &lent)
}
