// Who passes a set of placements: a route past it, whether it is a minimal block, the allowed mover's route.
#![tactic(auto)]

ghost use Rattle.std.specs.Prelude.{◌≡◌, ◌<◌, ◌&&◌, true, length};
ghost use Rattle.base_laws.specs.Lists.{ascends, is_some};
ghost use Rattle.set_blocked.specs.Blocked.{left_by, AllowReady, Named};
ghost use Rattle.route_find.specs.Ground.{open_in};
ghost use Rattle.route_find.specs.Results.{Routed};
ghost use Rattle.set_pass.specs.Lent.{Lent, Meets, Kept, Restored, past, is_minimal, map_past, map_lifted};
ghost use Rattle.set_pass.specs.Lent.{allow_on, allowed_on, map_allowed};
ghost use Rattle.set_pass.specs.Allowed.{Allowed};
ghost use Rattle.set_pass.specs.Same.{SameAreas};

use base_model::{Bounds, Rect};
use route_step::Grid;
use set_blocked::Mover;
use set_places::FlatPlaces;

// What a set is looked at on: the window, the two ends as its centres, the placements, and the order in which steps are tried.
#[derive(Clone, Copy)]
pub struct Ground<'a> {
    pub window: Rect,
    pub start: usize,
    pub end: usize,
    pub places: FlatPlaces<'a>,
    pub steps: &'a [i32],
}

// The areas that a look at a set works in, each with an entry for each centre of the window.
#[derive(Drop)]
pub struct Areas<'a> {
    pub map: &'a mut [u8],
    pub queue: &'a mut [u32],
    pub predecessors: &'a mut [u32],
    pub route: &'a mut [u32],
}

// Whether both ends are open on the map.
#[tactic(auto, unfolding(route_step::specs::Ground::open_in))]
pub fn ends_open(ground: &Ground<'_>, areas: &Areas<'_>) -> bool
    requires { (ground.now.start < length areas.now.map.now) × (ground.now.end < length areas.now.map.now) }
    ensures { result ≡ open_in areas.now.map.now ground.now.start && open_in areas.now.map.now ground.now.end }
{
    areas.map[ground.start] == 0 && areas.map[ground.end] == 0
}

// Lays the set, without its member number `lifted` where one is lifted, over the mover's baseline, and the mover's route past it into the
// route. The result is the number of its points.
pub fn route_past(
    ground: &Ground<'_>,
    mover: &Mover<'_>,
    set: &[u16],
    lifted: Option<usize>,
    areas: &mut Areas<'_>,
) -> Option<usize>
    requires route_lent { Lent ground.now areas.old }
    requires moving { Meets ground.now mover.now set.now }
    ensures routed { Routed (past ground.now mover.now (left_by lifted set.now)) areas.old.route.now areas.new.route.now result }
    ensures search_restored { Restored areas.old areas.new }
    ensures map_after { areas.new.map.now ≡ map_past ground.now mover.now (left_by lifted set.now) }
    ensures route_length { length areas.new.route.now ≡ length areas.old.route.now }
    ensures same_areas { SameAreas areas.old areas.new }
{
    let window = ground.window;
    let map = &mut *areas.map;
    set_blocked::blocked_for(mover, window, &ground.places, set, lifted, map);
    let grid = Grid {
        map,
        width: ground_rects::width(window),
        height: ground_rects::height(window),
    };
    let queue = &mut *areas.queue;
    let predecessors = &mut *areas.predecessors;
    route_find::route(
        &grid,
        ground.steps,
        ground.start,
        ground.end,
        queue,
        predecessors,
        areas.route,
    )
}

// Whether the set, without its member number `lifted` where one is lifted, leaves the mover a route. The map is left laid.
pub fn lets_pass(
    ground: &Ground<'_>,
    mover: &Mover<'_>,
    set: &[u16],
    lifted: Option<usize>,
    areas: &mut Areas<'_>,
) -> bool
    requires route_lent { Lent ground.now areas.old }
    requires moving { Meets ground.now mover.now set.now }
    ensures value { result ≡ is_some (past ground.now mover.now (left_by lifted set.now)) }
    ensures areas_kept { Kept areas.old areas.new }
    ensures map_after { areas.new.map.now ≡ map_past ground.now mover.now (left_by lifted set.now) }
    ensures same_areas { SameAreas areas.old areas.new }
{
    let Some(n) = route_past(ground, mover, set, lifted, areas) else {
        return false;
    };
    base_areas::clear(areas.route, n, 0);
    true
}

// Whether lifting any one member leaves the mover open ends and a route. It stops at the first member that does not; the map is left as
// laid without the member last lifted.
pub fn is_minimal_block(
    ground: &Ground<'_>,
    mover: &Mover<'_>,
    set: &[u16],
    areas: &mut Areas<'_>,
) -> bool
    requires route_lent { Lent ground.now areas.old }
    requires moving { Meets ground.now mover.now set.now }
    requires set_value { ascends set.now ≡ true }
    ensures value { result ≡ is_minimal ground.now mover.now set.now }
    ensures areas_kept { Kept areas.old areas.new }
    ensures map_after { areas.new.map.now ≡ map_lifted ground.now mover.now set.now areas.old.map.now }
    ensures same_areas { SameAreas areas.old areas.new }
{
    for k in 0..set.len() {
        if !lets_pass(ground, mover, set, Some(k), areas) {
            return false;
        }
    }
    true
}

// The allowed mover's route past the set, laid into the route, and the set over its baseline; no points and nothing laid where there is no
// allowed mover. The result is the number of points, and none where the mover has no route.
pub fn allowed_route(
    ground: &Ground<'_>,
    allow: Option<Bounds>,
    base: &[u8],
    set: &[u16],
    areas: &mut Areas<'_>,
) -> Option<usize>
    requires route_lent { Lent ground.now areas.old }
    requires allow_ready { AllowReady ground.now.window allow base.now }
    requires named { Named ground.now.places.edges.now set.now }
    ensures allowed { Allowed (allowed_on ground.now (allow_on ground.now allow base.now) set.now)
        result areas.old.route.now areas.new.route.now }
    ensures search_restored { Restored areas.old areas.new }
    ensures map_after { areas.new.map.now ≡ map_allowed ground.now (allow_on ground.now allow base.now) set.now areas.old.map.now }
    ensures route_length { length areas.new.route.now ≡ length areas.old.route.now }
    ensures same_areas { SameAreas areas.old areas.new }
{
    let Some(bounds) = allow else {
        return Some(0);
    };
    route_past(ground, &Mover { bounds, base }, set, None, areas)
}
