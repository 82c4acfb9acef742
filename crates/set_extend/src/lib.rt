// Which placements extend a set: those that may join it and touch the route that it leaves.
#![tactic(auto)]

ghost use Rattle.std.specs.Prelude.{◌≡◌, true, List, ℕ, ◌≤◌, ◌<◌, length};
ghost use Rattle.ground_rects.specs.Spans.{in_span};
ghost use Rattle.rule_routes.specs.Edges.{Step};
ghost use Rattle.set_places.specs.Groups.{InGroup};
ghost use Rattle.set_places.specs.Given.{places_at};
ghost use Rattle.set_extend.specs.Spots.{spot_of, RowStarts};
ghost use Rattle.set_extend.specs.Touch.{Trail, Looks, touched, step_in, BothOff};
ghost use Rattle.set_extend.specs.Join.{Rowed, free_slot, extending, ListWritten};

use base_model::{Bounds, Rect};
use ground_rects::Span;
use set_places::FlatPlaces;

// Where a centre stands: its column, its row, and the centre that its row starts with.
#[derive(Clone, Copy)]
struct Spot {
    x: usize,
    y: usize,
    start: usize,
}

// Where centre v stands, by dividing.
fn spot_of(width: usize, v: usize) -> Spot
    requires { 0 < width }
    ensures { result ≡ spot_of width v }
{
    let x = v % width;
    Spot {
        x,
        y: v / width,
        start: v - x,
    }
}

// Where centre v stands, found from a row below its own, row by row upwards.
fn spot_above(from: Spot, width: usize, v: usize) -> Spot
    requires row_starts { RowStarts width from }
    requires v_lt_start { v < from.start }
    ensures { result ≡ spot_of width v }
{
    let mut spot = from;
    while v < spot.start {
        spot.y -= 1;
        spot.start -= width;
    }
    spot.x = v - spot.start;
    spot
}

// Where centre v stands, found from its own row or one above it, row by row downwards.
fn spot_below(from: Spot, width: usize, v: usize) -> Spot
    requires row_starts { RowStarts width from }
    requires start_le_v { from.start ≤ v }
    ensures { result ≡ spot_of width v }
{
    let mut x = v - from.start;
    let mut y = from.y;
    while width <= x {
        x -= width;
        y += 1;
    }
    Spot { x, y, start: v - x }
}

// Where centre v stands, found without dividing from where another stands.
fn next_spot(from: Spot, width: usize, v: usize) -> Spot
    requires { RowStarts width from }
    ensures { result ≡ spot_of width v }
{
    if v < from.start {
        return spot_above(from, width, v);
    }
    spot_below(from, width, v)
}

// Whether the span holds column x of row y.
#[tactic(auto, unfolding(ground_rects::specs::Spans::in_span))]
fn in_span(span: Span, x: usize, y: usize) -> bool
    ensures { result ≡ in_span span x y }
{
    (span.left..span.right).contains(&x) && (span.top..span.bottom).contains(&y)
}

// Whether the span holds the spot `from`, or a side of the diagonal step from it to the spot `to`.
#[tactic(auto, unfolding(crate::specs::Touch::step_in))]
fn step_in(span: Span, from: Spot, to: Spot) -> bool
    ensures { result ≡ step_in span from.x from.y to.x to.y }
{
    in_span(span, from.x, from.y)
        || from.x != to.x
            && from.y != to.y
            && (in_span(span, to.x, from.y) || in_span(span, from.x, to.y))
}

// Whether both numbers lie before `low`, or both at `high` or after it. A yes means that neither is one of those between; a no means
// nothing. Each test returns at once: in one expression they take a third longer along a route.
fn both_off(low: usize, high: usize, a: usize, b: usize) -> bool
    ensures { result ≡ true → BothOff low high a b }
{
    if a < low {
        return b < low;
    }
    if a < high {
        return false;
    }
    high <= b
}

// The same as `step_in`, told at once where both ends of the step lie above the span, below it, left of it or right of it.
#[tactic(auto, using(crate::proofs::Touching::rows_off, crate::proofs::Touching::columns_off))]
fn quick_step_in(span: Span, from: Spot, to: Spot) -> bool
    ensures { result ≡ step_in span from.x from.y to.x to.y }
{
    if both_off(span.top, span.bottom, from.y, to.y)
        || both_off(span.left, span.right, from.x, to.x)
    {
        return false;
    }
    step_in(span, from, to)
}

// Whether the collision rectangle covers a point of the route, or a side centre of a diagonal step between two of them.
pub fn candidate_touches_witness(
    collision: Rect,
    mover: Bounds,
    window: Rect,
    route: &[u32],
) -> bool
    requires { Looks window mover }
    ensures { (steps : List Step) → Trail window steps route.now
        → result ≡ touched collision mover window steps route.now }
{
    let [first, rest @ ..] = route else {
        return false;
    };
    let span = ground_rects::clip(collision, window, mover);
    let width = ground_rects::width(window);
    let mut spot = spot_of(width, *first as usize);
    for &v in rest {
        let next = next_spot(spot, width, v as usize);
        if quick_step_in(span, spot, next) {
            return true;
        }
        spot = next;
    }
    in_span(span, spot.x, spot.y)
}

// Whether the group of placement i has a free slot beside the members.
#[tactic(auto, using(crate::proofs::Joining::slot_left))]
pub fn has_slot(places: &FlatPlaces<'_>, set: &[u16], i: usize) -> bool
    requires { InGroup places.now.groups.now places.now.numbers.now set.now i }
    ensures { (n : ℕ) → result ≡ free_slot (places_at n places.now) set.now i }
{
    places.slots_taken(set, i).is_lt()
}

// Writes the placements that extend the set, in index order, into the first entries of the list, which has an entry for each placement. The
// result is their number.
pub fn extensions(
    places: &FlatPlaces<'_>,
    window: Rect,
    mover: Bounds,
    set: &[u16],
    route: &[u32],
    list: &mut [u16],
) -> usize
    requires looks { Looks window mover }
    requires rowed { Rowed (length list.old) places.now.groups.now places.now.numbers.now places.now.edges.now set.now }
    ensures { (steps : List Step) → Trail window steps route.now
        → ListWritten (extending (places_at (length list.old) places.now) places.now.edges.now mover window steps set.now route.now)
        list.old list.new result }
{
    let n = list.len();
    let mut k = 0;
    'look: for i in 0..n {
        if !has_slot(places, set, i) {
            continue;
        }
        let footprint = places.footprint(i);
        // By index: must-fail/member_not_looked_at.edit begins at 1.
        for j in 0..set.len() {
            let m = set[j] as usize;
            if i == m || ground_rects::intersects(footprint, places.footprint(m)) {
                continue 'look;
            }
        }
        if candidate_touches_witness(places.collision(i), mover, window, route) {
            list[k] = i as u16;
            k += 1;
        }
    }
    k
}
