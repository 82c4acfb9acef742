// One centre of the search for a route: the steps of the table tried in order.
#![tactic(auto)]

ghost use Rattle.std.specs.Prelude.{◌≡◌, ◌*◌, ◌<◌, ◌^◌, [], ◌∷◌, pos, ◌+ℤ◌};
ghost use Rattle.base_laws.specs.Lists.{all_of};
ghost use Rattle.rule_routes.specs.Edges.{step_by, steps_of, sides_from, window_edges};
ghost use Rattle.rule_routes.specs.Routes as routes;
ghost use Rattle.route_step.specs.Ground.{open_in, Window, leads, Moved};
ghost use Rattle.route_step.specs.Areas.{SearchRoom, tried};

// A map of centres, row by row: a byte for each, 0 where it is open.
#[derive(Clone, Copy)]
pub struct Grid<'a> {
    pub map: &'a [u8],
    pub width: usize,
    pub height: usize,
    ghost whole: { Window map.now width height },
}

impl Grid<'_> {
    // Whether a centre is open.
    #[tactic(auto, unfolding(crate::specs::Ground::open_in))]
    pub fn is_open(&self, centre: usize) -> bool
        requires { centre < self.now.width * self.now.height }
        ensures { result ≡ open_in self.now.map.now centre }
    {
        self.map[centre] == 0
    }
}

// The place `by` away from `at`, if that is one below the limit.
fn moved(at: usize, by: i32, limit: usize) -> Option<usize>
    requires { (at < limit) × (limit < 2 ^ 32) }
    ensures { Moved at by limit result }
{
    let to = at as i64 + by as i64;
    if to < 0 || limit as i64 <= to {
        return None;
    }
    Some(to as usize)
}

// Whether the step by dx, dy from column x and row y to column nx and row ny passes its side centres.
fn passes(grid: &Grid<'_>, x: usize, y: usize, dx: i32, dy: i32, nx: usize, ny: usize) -> bool
    requires x_lt_width { (x < grid.now.width) × (y < grid.now.height) }
    requires nx_lt_width { (nx < grid.now.width) × (ny < grid.now.height) }
    requires dx_value { (pos x +ℤ dx ≡ pos nx) × (pos y +ℤ dy ≡ pos ny) }
    ensures { result ≡ all_of (open_in grid.now.map.now)
        (sides_from grid.now.width grid.now.height (pos x) (pos y) (step_by dx dy)) }
{
    if dx == 0 || dy == 0 {
        return true;
    }
    // A return of its own: must-fail/side_ignored.edit changes it.
    if !grid.is_open(y * grid.width + nx) {
        return false;
    }
    grid.is_open(ny * grid.width + x)
}

// The centre u at column x and row y tries one step. The result is the number of centres reached.
fn enter(
    grid: &Grid<'_>,
    u: usize,
    x: usize,
    y: usize,
    dx: i32,
    dy: i32,
    queue: &mut [u32],
    predecessors: &mut [u32],
    tail: usize,
) -> usize
    requires x_lt_width { (x < grid.now.width) × (y < grid.now.height) }
    requires u_bound { u < grid.now.width * grid.now.height }
    requires search_room { SearchRoom (grid.now.width * grid.now.height)
        (record { queue = queue.old; predecessors = predecessors.old; tail = tail }) }
    ensures { record { queue = queue.new; predecessors = predecessors.new; tail = result }
        ≡ tried u (leads grid.now.map.now grid.now.width grid.now.height (pos x) (pos y) (step_by dx dy ∷ []))
        (record { queue = queue.old; predecessors = predecessors.old; tail = tail }) }
{
    let Some(nx) = moved(x, dx, grid.width) else {
        return tail;
    };
    let Some(ny) = moved(y, dy, grid.height) else {
        return tail;
    };
    let v = ny * grid.width + nx;
    if predecessors[v] != 0 || !grid.is_open(v) || !passes(grid, x, y, dx, dy, nx, ny) {
        return tail;
    }
    predecessors[v] = (u + 1) as u32;
    queue[tail] = v as u32;
    tail + 1
}

// The centre u tries the steps of the table in order. The result is the number of centres reached.
pub fn expand(
    grid: &Grid<'_>,
    steps: &[i32],
    u: usize,
    queue: &mut [u32],
    predecessors: &mut [u32],
    tail: usize,
) -> usize
    requires u_bound { u < grid.now.width * grid.now.height }
    requires search_room { SearchRoom (grid.now.width * grid.now.height)
        (record { queue = queue.old; predecessors = predecessors.old; tail = tail }) }
    ensures { record { queue = queue.new; predecessors = predecessors.new; tail = result }
        ≡ tried u (routes.neighbours (window_edges grid.now.width grid.now.height (steps_of steps.now)) (open_in grid.now.map.now) u)
        (record { queue = queue.old; predecessors = predecessors.old; tail = tail }) }
{
    let x = u % grid.width;
    let y = u / grid.width;
    let mut t = tail;
    let (pairs, _) = steps.as_chunks::<2>();
    for &[dx, dy] in pairs {
        t = enter(grid, u, x, y, dx, dy, queue, predecessors, t);
    }
    t
}
