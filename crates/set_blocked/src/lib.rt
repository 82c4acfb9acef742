// What a set of placements blocks: a mover's baseline with the members' collision rectangles laid over it.
#![tactic(auto)]

ghost use Rattle.std.specs.Prelude.{◌≡◌, not, ◌≤◌, eqb, length, get_or};
ghost use Rattle.base_laws.specs.Fill.{filled};
ghost use Rattle.ground_rects.specs.Windows.{centres};
ghost use Rattle.set_blocked.specs.Blocked.{bit, blocked_map, mover_on, left_by, Ground, Named, CollisionStamped};

use base_model::{Bounds, Rect};
use ground_spans::Change;
use set_places::FlatPlaces;

// A mover: how far it reaches from its centre, and its baseline, 0 where it can stand.
#[derive(Clone, Copy)]
pub struct Mover<'a> {
    pub bounds: Bounds,
    pub base: &'a [u8],
}

// Copies as much of a baseline as the map holds, with 1 for any byte that is not zero.
fn copy_base(base: &[u8], map: &mut [u8])
    requires { length map.old ≤ length base.now }
    ensures { map.new ≡ filled (λ i. bit (not (eqb (get_or base.now i 0) 0))) (length map.old)
        map.old }
{
    for (i, to) in map.iter_mut().enumerate() {
        *to = u8::from(base[i] != 0);
    }
}

// Lays a collision rectangle over the map.
pub fn stamp_collision_into(map: &mut [u8], window: Rect, collision: Rect, mover: Bounds)
    requires { Ground window mover map.old }
    ensures { CollisionStamped window collision mover map.old map.new }
{
    let span = ground_rects::clip(collision, window, mover);
    let width = ground_rects::width(window);
    ground_spans::change_span(Change::Mark, map, width, span);
}

// Fills the map with what the set, without its member number `lifted` where one is lifted, leaves the mover.
pub fn blocked_for(
    mover: &Mover<'_>,
    window: Rect,
    places: &FlatPlaces<'_>,
    set: &[u16],
    lifted: Option<usize>,
    map: &mut [u8],
)
    requires ground { Ground window mover.now.bounds map.old }
    requires map_in_bounds { length map.old ≤ length mover.now.base.now }
    requires named { Named places.now.edges.now set.now }
    ensures { map.new ≡ blocked_map (mover_on window places.now.edges.now mover.now) (centres window) (left_by lifted set.now) }
{
    copy_base(mover.base, map);
    for (k, m) in set.iter().enumerate() {
        if lifted == Some(k) {
            continue;
        }
        let collision = places.collision(*m as usize);
        stamp_collision_into(map, window, collision, mover.bounds);
    }
}
