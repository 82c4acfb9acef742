// Sets as rows, lists and kept points in the areas of a search.
#![tactic(auto)]

ghost use Rattle.std.specs.Prelude.{◌≡◌, true, List, map, reverse, ℕ, ◌+◌, ◌*◌, ◌≤◌, ◌<◌, ltb, length, take, drop, get_or};
ghost use Rattle.std.specs.List.{position_or_len};
ghost use Rattle.base_laws.specs.Lists.{any_of, same, put_in, total};
ghost use Rattle.base_laws.specs.Fill.{over};
ghost use Rattle.ground_rects.specs.Windows.{centres, window_fits, position_of};
ghost use Rattle.rule_search.specs.State.{Extensions, set_on};
ghost use Rattle.rule_calls.specs.Areas.{row, numbers};
ghost use Rattle.search_rows.specs.Lay.{Seek, Stood, SomeStood};

use base_model::{Position, ROW, Rect};
use ground_rects::width;

// Whether the seven entries from `at` on are the row. Sets that a search visits one after the other differ in their last members, so these
// are looked at first.
fn same_row(area: &[u16], at: usize, set: [u16; ROW]) -> bool
    requires { at + 7 ≤ length area.now }
    ensures { result ≡ same set (take 7 (drop at area.now)) }
{
    for i in (0..ROW).rev() {
        if set[i] != area[at + i] {
            return false;
        }
    }
    true
}

// Whether the set is among the first rows.
pub fn among(area: &[u16], count: usize, set: [u16; ROW]) -> bool
    requires { count * 7 ≤ length area.now }
    ensures { (s : List ℕ) (vs : List (List ℕ)) (rest : List ℕ) → Seek area.now count set s vs rest
        → result ≡ any_of (same s) vs }
{
    for j in 0..count {
        if same_row(area, j * ROW, set) {
            return true;
        }
    }
    false
}

// Where a placement goes among the members of a set: before the first that is above it.
fn position(members: &[u16], v: u16) -> usize
    ensures within { result ≤ length members.now }
    ensures first { result ≡ position_or_len (λ (x : ℕ). ltb v x) members.now }
{
    members.iter().position(|x| v < *x).unwrap_or(members.len())
}

// A placement is put into a row.
fn insert(set: &mut [u16; ROW], v: u16)
    requires { get_or set.old 0 0 < 6 }
    ensures { (s : List ℕ) → set.old ≡ row s → length s < 6 → set.new ≡ row (put_in v s) }
{
    let n = set[0];
    let end = n as usize + 1;
    let at = position(&set[1..end], v) + 1;
    set.copy_within(at..end, at + 1);
    set[at] = v;
    set[0] = n + 1;
}

// The set that stands on the lists, which begin `places` apart; `nexts` says how many entries of each have been taken.
pub fn set_on(lists: &[u16], places: usize, nexts: &[u32]) -> [u16; ROW]
    requires { SomeStood lists.now places nexts.now }
    ensures { (ms : List Extensions) (rest : List ℕ) → Stood lists.now places nexts.now ms rest
        → result ≡ row (set_on (reverse ms)) }
{
    let mut set = [0; ROW];
    for (k, next) in nexts.iter().enumerate() {
        insert(&mut set, lists[k * places + *next as usize - 1]);
    }
    set
}

// Row k of an area is stored.
pub fn put_row(area: &mut [u16], k: usize, set: [u16; ROW])
    requires { k * 7 + 7 ≤ length area.old }
    ensures { area.new ≡ over area.old (k * 7) set }
{
    let at = k * ROW;
    area[at..at + ROW].copy_from_slice(&set);
}

// How many points the routes have together.
pub fn kept_points(routes: &[u32]) -> usize
    requires { length routes.now ≤ 32 }
    ensures { result ≡ total routes.now }
{
    routes.iter().map(|n| *n as usize).sum()
}

// The map pixel of a centre.
fn position_of(window: Rect, c: u32) -> Position
    requires { (window_fits 8192 8192 window ≡ true) × (c < centres window) }
    ensures { result ≡ position_of window c }
{
    let w = width(window) as u32;
    let x = window.left as u32 + c % w;
    let y = window.top as u32 + c / w;
    Position { x, y }
}

// The map pixels of a route's centres, from `at` on.
pub fn route_positions(points: &mut [u32], at: usize, route: &[u32], window: Rect)
    requires window_value { window_fits 8192 8192 window ≡ true }
    requires n_in_bounds { at + 2 * length route.now ≤ length points.old }
    requires by_index { (i : ℕ) → i < length route.now → get_or route.now i 0 < centres window }
    ensures { points.new ≡ over points.old at (numbers (map (position_of window) route.now)) }
{
    for (i, c) in route.iter().enumerate() {
        let p = position_of(window, *c);
        points[at + 2 * i] = p.x;
        points[at + 2 * i + 1] = p.y;
    }
}
