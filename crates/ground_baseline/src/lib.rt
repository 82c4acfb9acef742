// What terrain and obstacles block: the counts of a window laid with rectangles, and a mover's baseline read off them.
#![tactic(auto)]

ghost use Rattle.std.specs.Prelude.{◌≡◌, true, ◌&&◌, ℕ, ◌+◌, ◌*◌, ◌<◌, ◌≤◌, leb, ℤ, pos, List, [], ◌∷◌, ◌++◌, length, drop, replicate};
ghost use Rattle.base_laws.specs.Lists.{all_of};
ghost use Rattle.base_laws.specs.Ints.{up};
ghost use Rattle.base_laws.specs.Fill.{filled, Filling};
ghost use Rattle.ground_rects.specs.Rects.{nonempty, small, rects_of};
ghost use Rattle.ground_rects.specs.Windows.{width, height, centres};
ghost use Rattle.ground_baseline.specs.Baseline.{map_fits, cell_rect, off_edge, baseline_of};
ghost use Rattle.ground_baseline.specs.Lent.{map_of};
ghost use Rattle.ground_baseline.specs.Stamps.{shut_cells, RectsStamped, Open, Setting, blocked_at, RowAsked, Centres, Checked};

use base_model::{Bounds, CELL, OBSTACLES, Rect, SIDES};

// The pixels of a cell's side, and how many edges the most obstacles have.
const SIDE: usize = CELL as usize;

const MOST_EDGES: usize = SIDES * OBSTACLES;

// The walk cells of a map: so many across and down, and a byte of each, row by row, 1 walkable and 0 not.
#[derive(Clone, Copy)]
pub struct Cells<'a> {
    pub across: u32,
    pub down: u32,
    pub cells: &'a [u8],
}

impl Cells<'_> {
    // The pixels of cell i.
    #[tactic(auto, unfolding(crate::specs::Baseline::cell_rect, ground_rects::specs::Rects::rect))]
    fn rect(&self, i: usize) -> Rect
        requires { (0 < self.now.across) × ((self.now.across ≤ 1024) × (i < self.now.across * 1024)) }
        ensures { result ≡ cell_rect (map_of self.now) i }
    {
        let across = self.across as usize;
        let x = SIDE * (i % across);
        let y = SIDE * (i / across);
        Rect {
            left: x as i32,
            top: y as i32,
            right: (x + SIDE) as i32,
            bottom: (y + SIDE) as i32,
        }
    }

    // Whether a mover at the pixel (x, y) leaves the map.
    #[tactic(auto, unfolding(crate::specs::Baseline::off_edge))]
    fn left_by(&self, mover: Bounds, x: usize, y: usize) -> bool
        requires { (small mover ≡ true) × (((x < 8192) × (y < 8192)) × ((self.now.across ≤ 1024) × (self.now.down ≤ 1024))) }
        ensures { result ≡ off_edge (map_of self.now) [] mover (pos x) (pos y) }
    {
        x < mover.left as usize
            || y < mover.top as usize
            || SIDE * self.across as usize <= x + mover.right as usize
            || SIDE * self.down as usize <= y + mover.bottom as usize
    }
}

// What rectangles are laid for: a window, and the mover that they keep off its centres. A row of the counts has so many entries.
#[derive(Clone, Copy)]
struct Layer {
    window: Rect,
    mover: Bounds,
    stride: usize,
    ghost setting: { Setting stride window mover },
}

impl Layer {
    // Lays a rectangle onto the counts.
    fn stamp_expanded(&self, counts: &mut [i32], r: Rect)
        requires { Open self.now.window self.now.mover counts.old 1 }
        ensures { (rest : List ℤ) (rs : List Rect) → RectsStamped self.now.window self.now.mover rest rs counts.old
            → RectsStamped self.now.window self.now.mover rest (r ∷ rs) counts.new }
    {
        let p = ground_rects::clip(r, self.window, self.mover);
        ground_counts::add_rect(counts, self.stride, p);
    }

    // Lays each unwalkable cell onto the counts.
    fn stamp_terrain_blockers(&self, counts: &mut [i32], map: &Cells<'_>)
        requires { ((0 < map.now.across) × ((map.now.across ≤ 1024) × (length map.now.cells.now ≤ map.now.across * 1024)))
            × Open self.now.window self.now.mover counts.old (length map.now.cells.now) }
        ensures { (rest : List ℤ) (rs : List Rect) → RectsStamped self.now.window self.now.mover rest rs counts.old
            → RectsStamped self.now.window self.now.mover rest
            (shut_cells (map_of map.now) (length map.now.cells.now) ++ rs) counts.new }
    {
        for (i, cell) in map.cells.iter().enumerate() {
            if *cell == 0 {
                self.stamp_expanded(counts, map.rect(i));
            }
        }
    }

    // Lays each obstacle onto the counts.
    fn stamp_obstacles(&self, counts: &mut [i32], obstacles: &[i32])
        requires { (length obstacles.now ≡ length (rects_of obstacles.now) * 4)
            × Open self.now.window self.now.mover counts.old (length (rects_of obstacles.now)) }
        ensures { (rest : List ℤ) (rs : List Rect) → RectsStamped self.now.window self.now.mover rest rs counts.old
            → RectsStamped self.now.window self.now.mover rest (rects_of obstacles.now ++ rs) counts.new }
    {
        for i in 0..obstacles.len() / SIDES {
            self.stamp_expanded(counts, ground_rects::rect_at(obstacles, i));
        }
    }
}

// Marks the centres of row y of a window at (left, top).
fn blocked_row(
    baseline: &mut [u8],
    counts: &[i32],
    map: &Cells<'_>,
    mover: Bounds,
    left: usize,
    top: usize,
    width: usize,
    y: usize,
)
    requires { RowAsked mover map.now.across map.now.down left top width y (length counts.now) (length baseline.old) }
    ensures { (n : ℕ) (v : List ℕ) → y * width + width ≤ n → n ≤ length v
        → Filling (blocked_at (map_of map.now) mover left top width counts.now) n v baseline.old (y * width)
        → Filling (blocked_at (map_of map.now) mover left top width counts.now) n v baseline.new (y * width + width) }
{
    let at = y * width;
    let from = y * (width + 1);
    for x in 0..width {
        let blocked = counts[from + x] > 0 || map.left_by(mover, left + x, top + y);
        baseline[at + x] = blocked as u8;
    }
}

// Marks each centre that is blocked.
fn blocked_centers(
    baseline: &mut [u8],
    counts: &[i32],
    map: &Cells<'_>,
    window: Rect,
    mover: Bounds,
)
    requires { Centres window mover map.now.across map.now.down (length counts.now) (length baseline.old) }
    ensures { baseline.new ≡ filled
        (blocked_at (map_of map.now) mover (up window.left) (up window.top) (width window) counts.now) (centres window)
        baseline.old }
{
    let left = window.left as usize;
    let top = window.top as usize;
    let width = ground_rects::width(window);
    for y in 0..ground_rects::height(window) {
        blocked_row(baseline, counts, map, mover, left, top, width, y);
    }
}

// Marks a mover's whole baseline. The counts may hold anything before, and are zero after.
pub fn mark_baseline(
    map: &Cells<'_>,
    obstacles: &[i32],
    window: Rect,
    mover: Bounds,
    counts: &mut [i32],
    baseline: &mut [u8],
)
    requires { Checked (map_of map.now) obstacles.now window mover (length counts.old)
        (length baseline.old) }
    ensures baseline_after { baseline.new ≡ baseline_of (map_of map.now)
        (rects_of obstacles.now) mover window ++ drop (centres window) baseline.old }
    ensures counts_after { counts.new ≡ replicate ((width window + 1) * (height window + 1)) (pos 0)
        ++ drop ((width window + 1) * (height window + 1)) counts.old }
{
    let stride = ground_rects::width(window) + 1;
    let n = stride * (ground_rects::height(window) + 1);
    base_areas::clear(counts, n, 0);
    let layer = Layer {
        window,
        mover,
        stride,
    };
    layer.stamp_terrain_blockers(counts, map);
    layer.stamp_obstacles(counts, obstacles);
    ground_counts::finish(counts, stride, n);
    blocked_centers(baseline, counts, map, window, mover);
    base_areas::clear(counts, n, 0);
}

// Whether each cell is 0 or 1.
fn bytes_fit(cells: &[u8]) -> bool
    ensures { result ≡ all_of (λ (b : ℕ). leb b 1) cells.now }
{
    cells.iter().all(|&b| b <= 1)
}

// Whether the map's size, cell count and cells are right.
#[tactic(auto, unfolding(crate::specs::Baseline::map_fits))]
pub fn map_fits(map: &Cells<'_>) -> bool
    ensures { result ≡ map_fits (map_of map.now) }
{
    if !ground_rects::size_fits(map.across, map.down) {
        return false;
    }
    map.cells.len() == map.across as usize * map.down as usize && bytes_fit(map.cells)
}

// Whether there are no more than 4,096 obstacles, and none is empty.
pub fn obstacles_fit(obstacles: &[i32]) -> bool
    ensures { result ≡ (leb (length (rects_of obstacles.now)) 4096 && all_of nonempty (rects_of obstacles.now)) }
{
    if obstacles.len() > MOST_EDGES || obstacles.len() % SIDES != 0 {
        return false;
    }
    for i in 0..obstacles.len() / SIDES {
        if !ground_rects::nonempty(ground_rects::rect_at(obstacles, i)) {
            return false;
        }
    }
    true
}
