// How many centres a mover can reach from a start.
#![tactic(auto)]

ghost use Rattle.std.specs.Prelude.{◌≡◌, ◌*◌};
ghost use Rattle.rule_routes.specs.Edges.{steps_of, window_edges};
ghost use Rattle.rule_routes.specs.Routes.{reach_count};
ghost use Rattle.route_find.specs.Ground.{open_in};
ghost use Rattle.route_find.specs.Results.{SearchLent, SearchRestored};

use route_step::Grid;

// The number of centres to which there is a route from start, itself counted; 0 where it is closed. A search that has no end finds them
// all. The working areas are zero before and after.
pub fn reach_count(
    grid: &Grid<'_>,
    steps: &[i32],
    start: usize,
    queue: &mut [u32],
    predecessors: &mut [u32],
) -> u32
    requires search_lent { SearchLent (grid.now.width * grid.now.height) start queue.old predecessors.old }
    ensures value { result ≡ reach_count (window_edges grid.now.width grid.now.height (steps_of steps.now))
        (grid.now.width * grid.now.height) (open_in grid.now.map.now) start }
    ensures search_restored { SearchRestored queue.old predecessors.old queue.new predecessors.new }
{
    if !grid.is_open(start) {
        return 0;
    }
    let (Ok(tail) | Err(tail)) = route_find::search(grid, steps, start, None, queue, predecessors);
    route_back::wipe(queue, predecessors, tail, grid.width * grid.height);
    tail as u32
}
