// The frames of a search that evaluate nothing, and what an evaluation adds to the search record and lent areas, as in `WallSearch::step`.
#![tactic(auto)]

ghost use Rattle.std.specs.Prelude.{◌≡◌, true, false, List, ℕ, ◌+◌, ◌-◌, ◌*◌, ◌≤◌, ◌<◌, length, get_or};
ghost use Rattle.base_laws.specs.Lists.{any_of, same};
ghost use Rattle.base_laws.specs.Fill.{zeros, over};
ghost use Rattle.rule_layouts.specs.Boards.{Board};
ghost use Rattle.rule_search.specs.State.{State, Running, set_on};
ghost use Rattle.rule_search.specs.Frames as def;
ghost use Rattle.rule_search.specs.Frames.{Plan};
ghost use Rattle.rule_calls.specs.Areas.{record_of};
ghost use Rattle.std.specs.ControlFlow.{MatchControlFlow};
ghost use Rattle.search_turn.specs.Portion.{Fitting, Part, SomePart, Turned, Sought, entered_rec, taken_rec, popped_rec, pushed_rec};
ghost use Rattle.search_turn.specs.Portion.{Listable, Listing};

use base_model::{
    EXHAUSTED, Limits, POINTS, RESULT_LIMIT, ROW, RUNNING, Record, Rect, SLOTS, STATE_LIMIT,
};
use search_rows::{among, kept_points, put_row, route_positions, set_on};
use std::ops::ControlFlow;

// The last list of a search that has as many as there may be.
const LAST: usize = SLOTS - 1;

// The looks after a frame of a running search.
pub fn look(rec: Record, limits: Limits) -> Record
    ensures { (p : Plan) (n : ℕ) (s : State) → p.states ≡ limits.states → p.results ≡ limits.results → s.reason ≡ Running
        → rec ≡ record_of n s → result ≡ record_of n (def.look p s) }
{
    if limits.results <= rec.layouts {
        return Record {
            reason: RESULT_LIMIT,
            ..rec
        };
    }
    if !rec.pending && rec.lists == 0 {
        return Record {
            reason: EXHAUSTED,
            ..rec
        };
    }
    if limits.states <= rec.evaluations {
        return Record {
            reason: STATE_LIMIT,
            ..rec
        };
    }
    rec
}

// The list last made gives its next placement.
fn take_next(mut rec: Record) -> Record
    requires { (0 < rec.lists) × (rec.lists ≤ 6) × (get_or rec.nexts (rec.lists - 1) 0 < 6144) }
    ensures { result ≡ taken_rec rec }
{
    let top = rec.lists as usize - 1;
    rec.nexts[top] += 1;
    rec.pending = true;
    rec
}

// The list last made goes, and its place is cleared.
fn pop(mut rec: Record, places: usize, lists: &mut [u16]) -> Record
    requires { (0 < rec.lists) × (rec.lists ≤ 6) × (places ≤ 6144)
        × ((rec.lists - 1) * places + get_or rec.lengths (rec.lists - 1) 0 ≤ length lists.old) }
    ensures { (result ≡ popped_rec rec) × (lists.new
        ≡ over lists.old ((rec.lists - 1) * places) (zeros (get_or rec.lengths (rec.lists - 1) 0))) }
{
    let top = rec.lists as usize - 1;
    base_areas::clear_from(lists, top * places, rec.lengths[top] as usize, 0);
    rec.lists -= 1;
    rec.lengths[top] = 0;
    rec.nexts[top] = 0;
    rec
}

// Whether the pending set has been evaluated.
fn seen(rec: Record, limits: Limits, places: usize, lists: &[u16], visited: &[u16]) -> bool
    requires some_part { SomePart limits places rec lists.now visited.now }
    requires pending_value { rec.pending ≡ true }
    ensures { (g : Board) (p : Plan) (l₀ v₀ : List ℕ) (s : State) → Fitting g p limits places
        → Part g p l₀ v₀ s rec lists.now visited.now → result ≡ any_of (same (set_on s.lists)) s.visited }
{
    let set = set_on(lists, places, &rec.nexts[..rec.lists as usize]);
    among(visited, rec.evaluations as usize, set)
}

// One frame, after which another may follow, unless the search has stopped or the pending set is to be evaluated.
fn turn(
    rec: Record,
    limits: Limits,
    places: usize,
    lists: &mut [u16],
    visited: &[u16],
) -> ControlFlow<Record, Record>
    requires { SomePart limits places rec lists.old visited.now }
    ensures { (g : Board) (p : Plan) (l₀ v₀ : List ℕ) (s : State) → Fitting g p limits places
        → Part g p l₀ v₀ s rec lists.old visited.now
        → MatchControlFlow result (λ r. Turned g p l₀ v₀ s r true lists.new visited.now)
        (λ r. Turned g p l₀ v₀ s r false lists.new visited.now) }
{
    if rec.reason != RUNNING {
        return ControlFlow::Break(rec);
    }
    if limits.states <= rec.evaluations {
        return ControlFlow::Break(Record {
            reason: STATE_LIMIT,
            ..rec
        });
    }
    if rec.pending {
        if seen(rec, limits, places, lists, visited) {
            return ControlFlow::Continue(Record {
                pending: false,
                ..rec
            });
        }
        return ControlFlow::Break(rec);
    }
    if rec.lists == 0 {
        return ControlFlow::Break(Record {
            reason: EXHAUSTED,
            ..rec
        });
    }
    let top = rec.lists as usize - 1;
    if rec.nexts[top] < rec.lengths[top] {
        return ControlFlow::Continue(look(take_next(rec), limits));
    }
    ControlFlow::Continue(pop(rec, places, lists))
}

// Frames until the pending set is to be evaluated or the search stops.
pub fn seek(
    mut rec: Record,
    limits: Limits,
    places: usize,
    lists: &mut [u16],
    visited: &[u16],
) -> Record
    requires { SomePart limits places rec lists.old visited.now }
    ensures { (g : Board) (p : Plan) (l₀ v₀ : List ℕ) (s : State) → Fitting g p limits places
        → Part g p l₀ v₀ s rec lists.old visited.now
        → Sought g p l₀ v₀ s result lists.new visited.now }
{
    loop {
        match turn(rec, limits, places, lists, visited) {
            ControlFlow::Continue(next) => rec = next,
            ControlFlow::Break(last) => return last,
        }
    }
}

// The set enters the visited rows.
pub fn enter(rec: Record, visited: &mut [u16], set: [u16; ROW]) -> Record
    requires { (rec.evaluations < 100000) × (rec.evaluations * 7 + 7 ≤ length visited.old) }
    ensures { (result ≡ entered_rec rec) × (visited.new ≡ over visited.old (rec.evaluations * 7) set) }
{
    put_row(visited, rec.evaluations as usize, set);
    Record {
        evaluations: rec.evaluations + 1,
        pending: false,
        ..rec
    }
}

// A list of k extensions, which stand in its place already, is made; none where there are none.
pub fn push(mut rec: Record, k: usize) -> Record
    requires { ((k ≡ 0 → ⊥) → rec.lists < 6) × (k ≤ 6144) }
    ensures { (k ≡ 0 → result ≡ rec) × ((k ≡ 0 → ⊥) → result ≡ pushed_rec rec k) }
{
    if k == 0 {
        return rec;
    }
    rec.lengths[rec.lists as usize] = k as u32;
    rec.lists += 1;
    rec
}

// Where the place of the next list begins. Six lists have no list above them: the last place, which stays as it is.
pub fn place(count: usize, n: usize) -> usize
    requires { (count ≤ 6) × (n ≤ 6144) }
    ensures { (count < 6 → result ≡ count * n) × (result + n ≤ 6 * n) }
{
    count.min(LAST) * n
}

// A wall with an allowed route is listed, unless there are too many points. The route is cleared.
pub fn list_wall(
    mut rec: Record,
    limits: Limits,
    window: Rect,
    set: [u16; ROW],
    layouts: &mut [u16],
    points: &mut [u32],
    route: &mut [u32],
) -> Record
    requires { Listable rec window layouts.old points.old route.old }
    ensures { Listing limits rec window set route.old result layouts.old points.old
        layouts.new points.new route.new }
{
    let listed = rec.layouts as usize;
    let kept = kept_points(&rec.routes[..listed]);
    if POINTS < kept + route.len() {
        route.fill(0);
        return Record {
            reason: RESULT_LIMIT,
            ..rec
        };
    }
    put_row(layouts, listed, set);
    route_positions(points, 2 * kept, route, window);
    route.fill(0);
    rec.routes[listed] = route.len() as u32;
    rec.layouts += 1;
    look(rec, limits)
}
