// The ground that a set of placements leaves.
#![tactic(auto)]

ghost use Rattle.std.specs.Prelude.{◌≡◌, replicate};
ghost use Rattle.ground_rects.specs.Windows.{width, height, centres, centre_at};
ghost use Rattle.rule_routes.specs.Edges.{eight_steps, window_edges};
ghost use Rattle.rule_routes.specs.Routes.{reach_count};
ghost use Rattle.rule_layouts.specs.Boards.{leaves_open};
ghost use Rattle.set_blocked.specs.Blocked.{mover_in};
ghost use Rattle.set_pass.specs.Lent.{Restored};
ghost use Rattle.set_ground.specs.Ground.{GroundLentFor};
ghost use Rattle.set_pass.specs.Same.{SameAreas};

use route_step::Grid;
use set_blocked::Mover;
use set_pass::Areas;
use set_places::Given;

// The number of centres to which the blocked mover has a route from the start past the set. It does not depend on the order in which
// steps are tried, so none is taken, and the search is compiled for the original's. The areas are zero before and after; the route is as
// it was.
pub fn ground_left(given: &Given<'_>, set: &[u16], areas: &mut Areas<'_>) -> u32
    requires { GroundLentFor given.now set.now areas.old }
    ensures value { result ≡ reach_count
        (window_edges (width given.now.query.window) (height given.now.query.window) eight_steps) (centres given.now.query.window)
        (leaves_open (mover_in given.now.query.window given.now.places.edges.now given.now.query.block given.now.block_base.now) set.now)
        (centre_at given.now.query.window given.now.query.start) }
    ensures map_after { areas.new.map.now ≡ replicate (centres given.now.query.window) 0 }
    ensures search_restored { Restored areas.old areas.new }
    ensures route_kept { areas.new.route.now ≡ areas.old.route.now }
    ensures same_areas { SameAreas areas.old areas.new }
{
    let query = given.query;
    let window = query.window;
    let block = Mover {
        bounds: query.block,
        base: given.block_base,
    };
    let map = &mut *areas.map;
    set_blocked::blocked_for(&block, window, &given.places, set, None, map);
    let start = ground_centres::centre_at(window, query.start);
    let steps = route_table::original_steps();
    let grid = Grid {
        map,
        width: ground_rects::width(window),
        height: ground_rects::height(window),
    };
    let queue = &mut *areas.queue;
    let left = route_reach::reach_count(&grid, &steps, start, queue, areas.predecessors);
    map.fill(0);
    left
}
