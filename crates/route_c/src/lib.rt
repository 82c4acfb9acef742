// `route` under a C name, for programs that compare it with another search.
#![tactic(auto)]

ghost use Rattle.std.specs.Prelude.{◌*◌};
ghost use Rattle.rule_routes.specs.Edges.{steps_of, window_edges};
ghost use Rattle.rule_routes.specs.Routes as routes;
ghost use Rattle.route_find.specs.Ground.{open_in, Window};
ghost use Rattle.route_find.specs.Results.{LentAll, RouteFound, SearchRestored};

use route_step::Grid;

#[unsafe(no_mangle)]
pub extern "C" fn hitrovzen_route(
    map: &[u8],
    width: usize,
    height: usize,
    steps: &[i32],
    start: usize,
    end: usize,
    queue: &mut [u32],
    predecessors: &mut [u32],
    route: &mut [u32],
) -> usize
    requires window { Window map.now width height }
    requires lent_all { LentAll (width * height) start end queue.old predecessors.old route.old }
    ensures route_found { RouteFound
        (routes.route (window_edges width height (steps_of steps.now)) (width * height) (open_in map.now) start end)
        route.old route.new result }
    ensures search_restored { SearchRestored queue.old predecessors.old queue.new predecessors.new }
{
    let grid = Grid { map, width, height };
    route_find::route(&grid, steps, start, end, queue, predecessors, route).unwrap_or(0)
}
