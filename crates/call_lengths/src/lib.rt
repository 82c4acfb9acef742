// Whether lent areas are long enough.
#![tactic(auto)]

ghost use Rattle.std.specs.Prelude.{◌≡◌, true, ◌*◌, ◌≤◌, min, length};
ghost use Rattle.ground_rects.specs.Windows.{centres, window_fits};
ghost use Rattle.rule_layouts.specs.Inputs.{Inputs};
ghost use Rattle.rule_calls.specs.Areas as areas;
ghost use Rattle.rule_calls.specs.Areas.{counts_length, work_fits, store_fits};
ghost use Rattle.call_lengths.specs.Lengths.{WorkHas, StoreHas, points_room};
ghost use Rattle.call_lengths.specs.Lent.{work_of, store_of_areas, kept_in};

use base_model::{Limits, POINTS, Query, ROW, Rect, SLOTS};

// The working areas.
#[derive(Drop)]
pub struct Work<'a> {
    pub counts: &'a mut [i32],
    pub map: &'a mut [u8],
    pub queue: &'a mut [u32],
    pub predecessors: &'a mut [u32],
    pub route: &'a mut [u32],
}

// The areas that hold a search.
#[derive(Drop)]
pub struct Store<'a> {
    pub lists: &'a mut [u16],
    pub visited: &'a mut [u16],
    pub layouts: &'a mut [u16],
    pub points: &'a mut [u32],
}

// The same, where they are only read. The points are lent for a time of their own: a part of them that a call hands back holds these alone.
#[derive(Clone, Copy)]
pub struct Kept<'a, 'p> {
    pub lists: &'a [u16],
    pub visited: &'a [u16],
    pub layouts: &'a [u16],
    pub points: &'p [u32],
}

// How many entries the working areas have.
#[derive(Clone, Copy)]
pub struct WorkLengths {
    pub counts: usize,
    pub map: usize,
    pub queue: usize,
    pub predecessors: usize,
    pub route: usize,
}

// How many entries the areas that hold a search have.
#[derive(Clone, Copy)]
pub struct StoreLengths {
    pub lists: usize,
    pub visited: usize,
    pub layouts: usize,
    pub points: usize,
}

impl Work<'_> {
    // Their lengths.
    pub fn lengths(&self) -> WorkLengths
        ensures { WorkHas (work_of self.now) result }
    {
        WorkLengths {
            counts: self.counts.len(),
            map: self.map.len(),
            queue: self.queue.len(),
            predecessors: self.predecessors.len(),
            route: self.route.len(),
        }
    }
}

impl Store<'_> {
    // Their lengths.
    pub fn lengths(&self) -> StoreLengths
        ensures { StoreHas (store_of_areas self.now) result }
    {
        StoreLengths {
            lists: self.lists.len(),
            visited: self.visited.len(),
            layouts: self.layouts.len(),
            points: self.points.len(),
        }
    }

    // The areas as they stand, only to be read.
    pub fn kept(&self) -> Kept<'_, '_>
        ensures { kept_in result ≡ store_of_areas self.now }
    {
        Kept {
            lists: self.lists,
            visited: self.visited,
            layouts: self.layouts,
            points: self.points,
        }
    }
}

impl Kept<'_, '_> {
    // Their lengths.
    pub fn lengths(&self) -> StoreLengths
        ensures { StoreHas (kept_in self.now) result }
    {
        let Kept {
            lists,
            visited,
            layouts,
            points,
        } = *self;
        StoreLengths {
            lists: lists.len(),
            visited: visited.len(),
            layouts: layouts.len(),
            points: points.len(),
        }
    }
}

// How many centres the window has.
pub fn centres(window: Rect) -> usize
    requires { window_fits 8192 8192 window ≡ true }
    ensures { (result ≡ centres window) × (result ≤ 1048576) }
{
    ground_rects::width(window) * ground_rects::height(window)
}

// The length of the counts: one more than the window in width and in height.
pub fn counts_length(window: Rect) -> usize
    requires { window_fits 8192 8192 window ≡ true }
    ensures { result ≡ counts_length window }
{
    (ground_rects::width(window) + 1) * (ground_rects::height(window) + 1)
}

// Whether the working areas have room for the window.
#[tactic(auto, unfolding(rule_calls::specs::Areas::work_fits))]
pub fn work_fits(window: Rect, room: WorkLengths) -> bool
    requires { window_fits 8192 8192 window ≡ true }
    ensures { (a : areas.Work) → WorkHas a room → result ≡ work_fits window a }
{
    let c = centres(window);
    counts_length(window) <= room.counts
        && c <= room.map
        && c <= room.queue
        && c <= room.predecessors
        && c <= room.route
}

// Two numbers for each of at most 1,000,000 points.
fn pairs(most: usize) -> usize
    ensures { result ≡ 2 * min 1000000 most }
{
    2 * most.min(POINTS)
}

// The length of the points area.
#[tactic(auto, unfolding(crate::specs::Lengths::points_room))]
pub fn points_length(query: Query, limits: Limits) -> usize
    requires { (window_fits 8192 8192 query.window ≡ true) × (limits.results ≤ 32) }
    ensures { (result ≡ points_room query limits) × (result ≤ 2000000) }
{
    match query.allow {
        None => 0,
        Some(_) => pairs(limits.results as usize * centres(query.window)),
    }
}

// Whether the areas have room for a search over so many placements.
#[tactic(auto, using(crate::proofs::Fits::points_room_is), unfolding(rule_calls::specs::Areas::store_fits))]
pub fn store_fits(query: Query, limits: Limits, places: usize, room: StoreLengths) -> bool
    requires { (window_fits 8192 8192 query.window ≡ true) × ((limits.states ≤ 100000) × (limits.results ≤ 32)) }
    ensures { (i : Inputs) (a : areas.Store) → i.query ≡ query → length i.places ≡ places → StoreHas a room
        → result ≡ store_fits i limits a }
{
    // a sixth of the area is compared, since the product may pass the largest number
    places <= room.lists / SLOTS
        && ROW * limits.states as usize <= room.visited
        && ROW * limits.results as usize <= room.layouts
        && points_length(query, limits) <= room.points
}
