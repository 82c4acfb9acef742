// The frames of a search over the search record and lent areas, as `WallSearch::step`.
#![tactic(auto)]

ghost use Rattle.std.specs.Prelude.{◌≡◌, ◌≤◌, ◌++◌, length, take, drop};
ghost use Rattle.base_laws.specs.Fill.{zeros};
ghost use Rattle.ground_rects.specs.Windows.{centres};
ghost use Rattle.search_turn.specs.Portion.{Listable, Listing};
ghost use Rattle.set_board.specs.Ready.{BlankIn};
ghost use Rattle.rule_calls.specs.Areas.{store_in};
ghost use Rattle.call_lengths.specs.Lent.{store_of_areas};
ghost use Rattle.search_steps.specs.Terms.{terms_of, HoldsSome, HoldsRipe};
ghost use Rattle.search_steps.specs.Turned.{StepsTo, VisitsTo};
ghost use Rattle.set_pass.specs.Same.{SameAreas};
ghost use Rattle.call_lengths.specs.Same.{SameStore};

use base_model::{Limits, ROW, RUNNING, Record, Rect};
use call_lengths::Store;
use search_rows::set_on;
use search_turn::{enter, list_wall, look, place, push, seek};
use set_explore::{Explored, explore};
use set_pass::Areas;
use set_places::Given;

// A wall is listed whose allowed route is the first k entries of the route's area, which are cleared.
fn list_first(
    rec: Record,
    limits: Limits,
    window: Rect,
    set: [u16; ROW],
    k: usize,
    layouts: &mut [u16],
    points: &mut [u32],
    route: &mut [u32],
) -> Record
    requires k_in { k ≤ length route.old }
    requires listable { Listable rec window layouts.old points.old (take k route.old) }
    ensures listing { Listing limits rec window set (take k route.old) result layouts.old points.old
        layouts.new points.new (zeros (length (take k route.old))) }
    ensures rest { route.new ≡ zeros (length (take k route.old)) ++ drop k route.old }
{
    list_wall(rec, limits, window, set, layouts, points, &mut route[..k])
}

// The pending set is evaluated.
fn visit(
    given: &Given<'_>,
    limits: Limits,
    steps: &[i32],
    rec: Record,
    areas: &mut Areas<'_>,
    lists: &mut [u16],
    visited: &mut [u16],
    layouts: &mut [u16],
    points: &mut [u32],
) -> Record
    requires holds_ripe { HoldsRipe (terms_of given.now steps.now limits) rec
        (store_in lists.old visited.old layouts.old points.old) }
    requires blank { BlankIn (centres given.now.query.window) areas.old }
    ensures visits_to { VisitsTo (terms_of given.now steps.now limits)
        rec (store_in lists.old visited.old layouts.old points.old)
        result (store_in lists.new visited.new layouts.new points.new) }
    ensures blank_2 { BlankIn (centres given.now.query.window) areas.new }
    ensures same_areas { SameAreas areas.old areas.new }
{
    let n = rec.placements as usize;
    let count = rec.lists as usize;
    let set = set_on(lists, n, &rec.nexts[..count]);
    let more = enter(rec, visited, set);
    let end = set[0] as usize + 1;
    let at = place(count, n);
    let stop = at + n;
    let told = explore(given, steps, &set[1..end], &mut lists[at..stop], areas);
    match told {
        Explored::Nothing => look(more, limits),
        Explored::Extend(k) => look(push(more, k), limits),
        Explored::Wall(k) => list_first(
            more,
            limits,
            given.query.window,
            set,
            k,
            layouts,
            points,
            areas.route,
        ),
    }
}

// n portions of one evaluation each. After a stop it returns at once.
pub fn steps(
    given: &Given<'_>,
    limits: Limits,
    steps: &[i32],
    rec: Record,
    n: u32,
    areas: &mut Areas<'_>,
    store: &mut Store<'_>,
) -> Record
    requires holds_some { HoldsSome (terms_of given.now steps.now limits) rec (store_of_areas store.old) }
    requires blank { BlankIn (centres given.now.query.window) areas.old }
    ensures steps_to { StepsTo (terms_of given.now steps.now limits) n rec (store_of_areas store.old) result (store_of_areas store.new) }
    ensures blank_2 { BlankIn (centres given.now.query.window) areas.new }
    ensures same_areas { SameAreas areas.old areas.new }
    ensures same_store { SameStore store.old store.new }
{
    let places = rec.placements as usize;
    let lists = &mut *store.lists;
    let visited = &mut *store.visited;
    let layouts = &mut *store.layouts;
    let points = &mut *store.points;
    let mut r = rec;
    for i in 0..n {
        let found = seek(r, limits, places, lists, visited);
        if found.reason != RUNNING {
            return found;
        }
        r = visit(
            given, limits, steps, found, areas, lists, visited, layouts, points,
        );
    }
    r
}
