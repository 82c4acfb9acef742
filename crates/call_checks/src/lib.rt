// The checks that the calls share.
#![tactic(auto)]

ghost use Rattle.std.specs.Prelude.{◌≡◌, true, ◌&&◌, List, ℕ, ℤ, ◌+◌, ◌*◌, ◌/◌, ◌≤◌, min, leb, length};
ghost use Rattle.std.specs.Option.{unwrap_or};
ghost use Rattle.base_model.specs.Answers.{first, reply_of};
ghost use Rattle.ground_rects.specs.Rects.{small};
ghost use Rattle.ground_rects.specs.Windows.{window_fits, in_window};
ghost use Rattle.rule_layouts.specs.Flat.{placement_at, placements_of};
ghost use Rattle.rule_layouts.specs.Inputs.{Inputs};
ghost use Rattle.rule_calls.specs.Areas.{Work, Store, work_fits, store_fits};
ghost use Rattle.rule_calls.specs.Calls.{begin_checks};
ghost use Rattle.call_lengths.specs.Lengths.{WorkHas, StoreHas};
ghost use Rattle.rule_calls.specs.Checks.{group_checks, limit_checks, placement_fits, place_checks};
ghost use Rattle.call_checks.specs.Parts.{asked, groups_fit, allow_small, allow_long, frame_checks, area_checks, Misplaced};

use base_model::{
    Bounds, EDGES, LAST_SPEC, LAYOUTS, Limits, NUMBERS, PIXELS, PLACES, Query, Rect, Refusal,
    SLOTS, STATES,
};
use call_lengths::{StoreLengths, WorkLengths};
use set_places::{FlatPlaces, Given};

// The bounds of slots and of listed layouts, as the numbers of 32 bits that they are compared with.
const MOST_SLOTS: u32 = SLOTS as u32;

const RESULTS: u32 = LAYOUTS as u32;

// Refuses unless the condition holds.
pub fn ask(holds: bool, refusal: Refusal) -> Result<(), Refusal>
    ensures { result ≡ asked holds refusal }
{
    if holds { Ok(()) } else { Err(refusal) }
}

// Whether n is from 1 up to the most.
fn from_one(n: u32, most: u32) -> bool
    ensures { result ≡ (leb 1 n && leb n most) }
{
    1 <= n && n <= most
}

// Whether up to 6 groups have slot counts 1 to 6, at most 6 together.
fn groups_fit(groups: &[u32]) -> bool
    ensures { result ≡ groups_fit groups.now }
{
    if groups.len() > SLOTS {
        return false;
    }
    let mut sum = 0;
    for &slots in groups {
        if !from_one(slots, MOST_SLOTS) {
            return false;
        }
        sum += slots;
    }
    sum <= MOST_SLOTS
}

// 10.
pub fn check_groups(groups: &[u32]) -> Result<(), Refusal>
    ensures { (i : Inputs) → i.groups ≡ groups.now → reply_of result ≡ first (group_checks i) }
{
    ask(groups_fit(groups), Refusal::GroupsInvalid)
}

// 11 and 12.
pub fn check_limits(limits: Limits) -> Result<(), Refusal>
    ensures { reply_of result ≡ first (limit_checks limits) }
{
    ask(from_one(limits.states, STATES), Refusal::StateLimitInvalid)?;
    ask(
        from_one(limits.results, RESULTS),
        Refusal::ResultLimitInvalid,
    )
}

// Whether start and end lie in the window.
fn ends_inside(query: Query) -> bool
    ensures { result ≡ (in_window query.window query.start && in_window query.window query.end) }
{
    ground_rects::in_window(query.window, query.start)
        && ground_rects::in_window(query.window, query.end)
}

// Whether the allowed mover, if there is one, is small enough.
#[tactic(auto, unfolding(crate::specs::Parts::allow_small))]
fn allow_small(allow: Option<Bounds>) -> bool
    ensures { result ≡ allow_small allow }
{
    match allow {
        None => true,
        Some(mover) => ground_rects::small(mover),
    }
}

// Whether both movers are small enough.
fn movers_small(query: Query) -> bool
    ensures { result ≡ (small query.block && allow_small query.allow) }
{
    ground_rects::small(query.block) && allow_small(query.allow)
}

// 2, 3 and 4.
pub fn check_query(query: Query) -> Result<(), Refusal>
    ensures { (i : Inputs) → i.query ≡ query → reply_of result ≡ first (frame_checks i) }
{
    ask(
        ground_rects::window_fits(query.window, PIXELS, PIXELS),
        Refusal::WindowInvalid,
    )?;
    ask(ends_inside(query), Refusal::EndOutside)?;
    ask(movers_small(query), Refusal::BoundTooLarge)
}

// Whether the allowed mover's baseline, if there is one, has n bytes.
#[tactic(auto, unfolding(crate::specs::Parts::allow_long))]
fn allow_long(n: usize, allow: Option<Bounds>, base: usize) -> bool
    ensures { result ≡ allow_long n allow base }
{
    match allow {
        None => true,
        Some(_) => n <= base,
    }
}

// 6. The call takes other areas too: `long` says whether they are long enough.
pub fn check_areas(given: &Given<'_>, long: bool) -> Result<(), Refusal>
    requires { window_fits 8192 8192 given.now.query.window ≡ true }
    ensures { (i : Inputs) → i.query ≡ given.now.query → i.block_base ≡ given.now.block_base.now → i.allow_base ≡ given.now.allow_base.now
        → reply_of result ≡ first (area_checks i long) }
{
    let n = call_lengths::centres(given.query.window);
    let bases = n <= given.block_base.len()
        && allow_long(n, given.query.allow, given.allow_base.len());
    ask(bases && long, Refusal::AreaTooShort)
}

// How many placements stand whole in both rows.
fn whole_places(numbers: usize, edges: usize) -> usize
    ensures { result ≡ min (numbers / 4) (edges / 8) }
{
    (numbers / NUMBERS).min(edges / EDGES)
}

// How many placements are lent in rows of so many numbers and edges: a part left over in either row counts as one more.
pub fn place_count(numbers: usize, edges: usize) -> usize
    ensures { (ns : List ℕ) (es : List ℤ) → length ns ≡ numbers → length es ≡ edges → result ≡ length (placements_of ns es) }
{
    let whole = whole_places(numbers, edges);
    if numbers == NUMBERS * whole && edges == EDGES * whole {
        whole
    } else {
        whole + 1
    }
}

// Whether placement i passes 15.
#[tactic(auto, unfolding(rule_calls::specs::Checks::placement_fits, rule_layouts::specs::Flat::placement_at))]
fn placement_fits(window: Rect, places: &FlatPlaces<'_>, i: usize) -> bool
    requires { (4 * i + 4 ≤ length places.now.numbers.now) × (8 * i + 8 ≤ length places.now.edges.now) }
    ensures { result ≡ placement_fits window places.now.groups.now (placement_at places.now.numbers.now places.now.edges.now i) }
{
    let footprint = places.footprint(i);
    places.numbers[NUMBERS * i] <= LAST_SPEC
        && places.group(i) < places.groups.len()
        && ground_rects::nonempty(footprint)
        && ground_rects::nonempty(places.collision(i))
        && ground_rects::holds(window, footprint)
}

// The first of n placements that does not pass 15.
fn first_misplaced(window: Rect, places: &FlatPlaces<'_>, n: usize) -> Option<usize>
    requires { (4 * n ≤ length places.now.numbers.now) × (8 * n ≤ length places.now.edges.now) }
    ensures { Misplaced window places.now.groups.now places.now.numbers.now places.now.edges.now n (unwrap_or result n) }
{
    (0..n).find(|&i| !placement_fits(window, places, i))
}

// 14 and 15.
pub fn check_places(window: Rect, places: &FlatPlaces<'_>) -> Result<(), Refusal>
    ensures { (i : Inputs) → i.query.window ≡ window → i.groups ≡ places.now.groups.now
        → i.places ≡ placements_of places.now.numbers.now places.now.edges.now → reply_of result ≡ first (place_checks i) }
{
    let n = place_count(places.numbers.len(), places.edges.len());
    if n > PLACES {
        return Err(Refusal::TooManyPlacements);
    }
    // what is left over in the rows is one more placement, which does not pass
    let whole = whole_places(places.numbers.len(), places.edges.len());
    let at = first_misplaced(window, places, whole).unwrap_or(whole);
    if at < n {
        return Err(Refusal::PlacementInvalid(at as u32));
    }
    Ok(())
}

// Whether the working areas and those that hold a search are long enough.
fn room_for(
    query: Query,
    limits: Limits,
    places: usize,
    work: WorkLengths,
    store: StoreLengths,
) -> bool
    requires { (window_fits 8192 8192 query.window ≡ true) × ((limits.states ≤ 100000) × (limits.results ≤ 32)) }
    ensures { (i : Inputs) (w : Work) (s : Store) → i.query ≡ query → length i.places ≡ places → WorkHas w work
        → StoreHas s store → result ≡ (work_fits i.query.window w && store_fits i limits s) }
{
    call_lengths::work_fits(query.window, work)
        && call_lengths::store_fits(query, limits, places, store)
}

// 10, 11, 12, 2, 3, 4 and 6, for so many placements and areas of these lengths. The rows of placements are not looked at.
pub fn begin_checks(
    given: &Given<'_>,
    limits: Limits,
    places: usize,
    work: WorkLengths,
    store: StoreLengths,
) -> Result<(), Refusal>
    ensures { (i : Inputs) (w : Work) (s : Store) → i.query ≡ given.now.query → i.groups ≡ given.now.places.groups.now
        → length i.places ≡ places → i.block_base ≡ given.now.block_base.now → i.allow_base ≡ given.now.allow_base.now
        → WorkHas w work → StoreHas s store → reply_of result ≡ first (begin_checks i limits w s) }
{
    check_groups(given.places.groups)?;
    check_limits(limits)?;
    check_query(given.query)?;
    let long = room_for(given.query, limits, places, work, store);
    check_areas(given, long)
}
