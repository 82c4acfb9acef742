// The search for a route over a map of centres, in lent areas.
#![tactic(auto)]

ghost use Rattle.std.specs.Prelude.{◌≡◌, ℕ, ◌+◌, ◌*◌, Bool, true, pos, nat_abs, ◌-ℤ◌, is_ok};
ghost use Rattle.std.specs.Int.Signed.{le_z};
ghost use Rattle.rule_routes.specs.Edges.{steps_of, window_edges};
ghost use Rattle.rule_routes.specs.Routes as routes;
ghost use Rattle.route_find.specs.Ground.{open_in, InWindow};
ghost use Rattle.route_find.specs.Results.{SearchLent, LentAll, StopsAt, SearchLeft, SearchFound, Routed, SearchRestored, tail_of};

use route_step::Grid;

// How far `at` lies past `from`.
fn offset(at: u32, from: i32) -> usize
    requires { le_z from (pos at) ≡ true }
    ensures { result ≡ nat_abs (pos at -ℤ from) }
{
    (at as i64 - from as i64) as usize
}

// The number of the centre at a pixel of the window whose first pixel is left, top.
pub fn local_index(x: u32, y: u32, left: i32, top: i32, width: usize) -> usize
    requires { InWindow x y left top width }
    ensures { result ≡ nat_abs (pos y -ℤ top) * width + nat_abs (pos x -ℤ left) }
{
    let across = offset(x, left);
    let down = offset(y, top);
    down * width + across
}

// The search from start to its end, or with no end: then all that is joined to the start is reached. `Ok` where the end is reached, `Err`
// where no centre is left to try, with the number of centres reached; the queue's first entries are these, in order of discovery.
pub fn search(
    grid: &Grid<'_>,
    steps: &[i32],
    start: usize,
    end: Option<usize>,
    queue: &mut [u32],
    predecessors: &mut [u32],
) -> Result<usize, usize>
    requires search_lent { SearchLent (grid.now.width * grid.now.height) start queue.old predecessors.old }
    ensures search_left { SearchLeft (grid.now.width * grid.now.height) (tail_of result)
        queue.old predecessors.old queue.new predecessors.new }
    ensures by_index { (stops : ℕ → Bool) → StopsAt (grid.now.width * grid.now.height) end stops → SearchFound
        (routes.search_from (window_edges grid.now.width grid.now.height (steps_of steps.now)) (grid.now.width * grid.now.height)
        (open_in grid.now.map.now) stops start)
        queue.new predecessors.new start end (is_ok result) (tail_of result) }
{
    predecessors[start] = (start + 1) as u32;
    queue[0] = start as u32;
    let mut head = 0;
    let mut tail = 1;
    // The queue grows while it is read.
    while head < tail {
        let u = queue[head] as usize;
        if end == Some(u) {
            return Ok(tail);
        }
        tail = route_step::expand(grid, steps, u, queue, predecessors, tail);
        head += 1;
    }
    Err(tail)
}

// The route from start to end, written into the first entries of `route`. The result is the number of its points, and none where there is
// no route. The working areas are zero before and after.
pub fn route(
    grid: &Grid<'_>,
    steps: &[i32],
    start: usize,
    end: usize,
    queue: &mut [u32],
    predecessors: &mut [u32],
    route: &mut [u32],
) -> Option<usize>
    requires lent_all { LentAll (grid.now.width * grid.now.height) start end queue.old predecessors.old route.old }
    ensures routed { Routed
        (routes.route (window_edges grid.now.width grid.now.height (steps_of steps.now)) (grid.now.width * grid.now.height)
        (open_in grid.now.map.now) start end)
        route.old route.new result }
    ensures search_restored { SearchRestored queue.old predecessors.old queue.new predecessors.new }
{
    if !grid.is_open(start) || !grid.is_open(end) {
        return None;
    }
    let c = grid.width * grid.height;
    let tail = match search(grid, steps, start, Some(end), queue, predecessors) {
        Ok(tail) => tail,
        Err(tail) => {
            route_back::wipe(queue, predecessors, tail, c);
            return None;
        }
    };
    let n = route_back::count(predecessors, start, end);
    route_back::lay(predecessors, start, end, n, route);
    route_back::wipe(queue, predecessors, tail, c);
    Some(n)
}
