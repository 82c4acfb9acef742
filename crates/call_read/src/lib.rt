// Reading a layout.
#![tactic(auto)]

ghost use Rattle.std.specs.Prelude.{◌≡◌, true, List, ℕ, ◌/◌, ◌≤◌, length};
ghost use Rattle.base_model.specs.Answers.{first, reply_of};
ghost use Rattle.ground_rects.specs.Windows.{window_fits};
ghost use Rattle.rule_layouts.specs.Inputs.{Inputs};
ghost use Rattle.rule_calls.specs.Areas.{Store, store_in, store_fits, points_of};
ghost use Rattle.rule_calls.specs.Calls.{read_checks, read_call};
ghost use Rattle.set_places.specs.Given.{inputs_in};
ghost use Rattle.call_lengths.specs.Lengths.{StoreHas};
ghost use Rattle.call_lengths.specs.Lent.{kept_in};
ghost use Rattle.call_record.specs.Given.{ChecksFound};
ghost use Rattle.call_read.specs.Parts.{queried, lent, recorded};
ghost use Rattle.call_read.specs.Told.{points_in, told, number_in, index_in, PartInside};

use base_model::{Limits, Query, Record, Refusal};
use call_checks::ask;
use call_lengths::{Kept, StoreLengths};
use set_places::Given;

// 10, 11, 12, 2, 3 and 4.
fn check_queried(query: Query, limits: Limits, groups: &[u32]) -> Result<(), Refusal>
    ensures { (i : Inputs) → i.query ≡ query → i.groups ≡ groups.now → reply_of result ≡ first (queried i limits) }
{
    call_checks::check_groups(groups)?;
    call_checks::check_limits(limits)?;
    call_checks::check_query(query)
}

// 6, 14 and 15.
fn check_lent(given: &Given<'_>, limits: Limits, room: StoreLengths) -> Result<(), Refusal>
    requires { (window_fits 8192 8192 given.now.query.window ≡ true) × ((limits.states ≤ 100000) × (limits.results ≤ 32)) }
    ensures { (a : Store) → StoreHas a room
        → reply_of result ≡ first (lent (inputs_in given.now) (store_fits (inputs_in given.now) limits a)) }
{
    let count = call_checks::place_count(given.places.numbers.len(), given.places.edges.len());
    let long = call_lengths::store_fits(given.query, limits, count, room);
    call_checks::check_areas(given, long)?;
    call_checks::check_places(given.query.window, &given.places)
}

// 16 and 17.
fn check_recorded(
    given: &Given<'_>,
    limits: Limits,
    rec: Record,
    k: u32,
    kept: &Kept<'_, '_>,
) -> Result<(), Refusal>
    requires { ChecksFound given.now.query limits (length given.now.places.numbers.now / 4) given.now.places.groups.now
        given.now.places.numbers.now given.now.places.edges.now kept.now.lists.now kept.now.visited.now kept.now.layouts.now }
    ensures { reply_of result ≡ first (recorded (inputs_in given.now) limits rec k (kept_in kept.now)) }
{
    ask(
        call_record::record_fits(given, limits, rec, kept),
        Refusal::RecordInvalid,
    )?;
    ask(k < rec.layouts, Refusal::SelectionInvalid)
}

// All checks of a reading.
pub fn read_checks(
    given: &Given<'_>,
    limits: Limits,
    rec: Record,
    k: u32,
    kept: &Kept<'_, '_>,
) -> Result<(), Refusal>
    ensures { reply_of result ≡ first (read_checks (inputs_in given.now) limits rec k (kept_in kept.now)) }
{
    check_queried(given.query, limits, given.places.groups)?;
    check_lent(given, limits, kept.lengths())?;
    check_recorded(given, limits, rec, k, kept)
}

// The part of the points area that is layout k's route.
fn part_of<'a>(rec: Record, k: u32, points: &'a [u32]) -> &'a [u32]
    requires { PartInside rec k points.now }
    ensures { result.now ≡ points_of rec points.now k }
{
    let k = k as usize;
    let from = 2 * search_rows::kept_points(&rec.routes[..k]);
    let to = from + 2 * rec.routes[k] as usize;
    &points[from..to]
}

// The allowed mover's route past layout k, as that part of the points area.
pub fn read<'p>(
    given: &Given<'_>,
    limits: Limits,
    rec: Record,
    k: u32,
    kept: &Kept<'_, 'p>,
) -> Result<&'p [u32], Refusal>
    ensures call { read_call (inputs_in given.now) limits rec k (kept_in kept.now)
        ≡ record { answer = reply_of result; points = points_in result } }
    ensures numbers { told (read_call (inputs_in given.now) limits rec k (kept_in kept.now))
        ≡ record { points = points_in result; answer = number_in (reply_of result); index = index_in (reply_of result) } }
{
    read_checks(given, limits, rec, k, kept)?;
    Ok(part_of(rec, k, kept.points))
}
