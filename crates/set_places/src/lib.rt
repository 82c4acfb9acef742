// Placements lent flat, read by index.
#![tactic(auto)]

ghost use Rattle.std.specs.Prelude.{◌≡◌, ◌+◌, ◌*◌, ◌≤◌, length, get_or};
ghost use Rattle.rule_layouts.specs.Flat.{rect_at};
ghost use Rattle.set_places.specs.Groups.{of_group, taken, InRow, InGroup};

use base_model::{NUMBERS, Query, RECTS, Rect};
use std::cmp::Ordering;

// Placements lent flat: the slot counts of their groups, four numbers each (spec index, group, tile x, tile y), and eight edges each
// (footprint, collision).
#[derive(Clone, Copy)]
pub struct FlatPlaces<'a> {
    pub groups: &'a [u32],
    pub numbers: &'a [u32],
    pub edges: &'a [i32],
}

impl FlatPlaces<'_> {
    // The group of placement i.
    pub fn group(&self, i: usize) -> usize
        requires { 4 * i + 4 ≤ length self.now.numbers.now }
        ensures { result ≡ get_or self.now.numbers.now (4 * i + 1) 0 }
    {
        self.numbers[i * NUMBERS + 1] as usize
    }

    // How many members are of the group. Each adds 0 or 1: where groups come in no order, a branch for each would be guessed wrong.
    pub fn count_in_group(&self, set: &[u16], group: usize) -> usize
        requires { InRow self.now.numbers.now set.now }
        ensures { result ≡ of_group self.now.numbers.now group set.now }
    {
        let mut count = 0;
        for &m in set {
            count += usize::from(self.group(m as usize) == group);
        }
        count
    }

    // How many members are of the group of placement i, as against its slots: fewer, as many, or more.
    pub fn slots_taken(&self, set: &[u16], i: usize) -> Ordering
        requires { InGroup self.now.groups.now self.now.numbers.now set.now i }
        ensures { result ≡ taken self.now.groups.now self.now.numbers.now set.now i }
    {
        let group = self.group(i);
        let slots = self.groups[group] as usize;
        self.count_in_group(set, group).cmp(&slots)
    }

    // The footprint of placement i: the first of its two rectangles.
    #[tactic(auto, unfolding(rule_layouts::specs::Flat::rect_at, ground_rects::specs::Spans::nth_rect))]
    pub fn footprint(&self, i: usize) -> Rect
        requires { 8 * i + 8 ≤ length self.now.edges.now }
        ensures { result ≡ rect_at self.now.edges.now (8 * i) }
    {
        ground_rects::rect_at(self.edges, i * RECTS)
    }

    // The collision rectangle of placement i: the second of its two rectangles.
    #[tactic(auto, unfolding(rule_layouts::specs::Flat::rect_at, ground_rects::specs::Spans::nth_rect))]
    pub fn collision(&self, i: usize) -> Rect
        requires { 8 * i + 8 ≤ length self.now.edges.now }
        ensures { result ≡ rect_at self.now.edges.now (8 * i + 4) }
    {
        ground_rects::rect_at(self.edges, i * RECTS + 1)
    }
}

// What a search or a judgement is given: the query, the placements, and the baselines of both movers.
#[derive(Clone, Copy)]
pub struct Given<'a> {
    pub query: Query,
    pub places: FlatPlaces<'a>,
    pub block_base: &'a [u8],
    pub allow_base: &'a [u8],
}
