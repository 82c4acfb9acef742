// The verdict on a set of placements that leaves the blocked mover no route.
#![tactic(auto)]

ghost use Rattle.std.specs.Prelude.{◌≡◌, length};
ghost use Rattle.base_laws.specs.Lists.{is_some};
ghost use Rattle.ground_rects.specs.Windows.{centres};
ghost use Rattle.set_blocked.specs.Blocked.{AllowReady, Named};
ghost use Rattle.set_pass.specs.Pass.{Shutting};
ghost use Rattle.set_pass.specs.Lent.{Lent, Kept, allow_on, allowed_on};
ghost use Rattle.set_shut.specs.Shut.{shut_on};
ghost use Rattle.set_pass.specs.Same.{SameAreas};

use base_model::{Bounds, Verdict};
use set_blocked::Mover;
use set_pass::{Areas, Ground};
use set_places::Given;

// Whether the allowed mover, if there is one, has a route past the set.
fn lets_allowed(
    ground: &Ground<'_>,
    allow: Option<Bounds>,
    base: &[u8],
    set: &[u16],
    areas: &mut Areas<'_>,
) -> bool
    requires route_lent { Lent ground.now areas.old }
    requires allow_ready { AllowReady ground.now.window allow base.now }
    requires named { Named ground.now.places.edges.now set.now }
    ensures value { result ≡ is_some (allowed_on ground.now (allow_on ground.now allow base.now) set.now) }
    ensures areas_kept { Kept areas.old areas.new }
    ensures map_bytes { length areas.new.map.now ≡ centres ground.now.window }
    ensures same_areas { SameAreas areas.old areas.new }
{
    let Some(n) = set_pass::allowed_route(ground, allow, base, set, areas) else {
        return false;
    };
    base_areas::clear(areas.route, n, 0);
    true
}

// The verdict on a set that leaves the blocked mover open ends and no route.
pub fn shut_verdict(
    ground: &Ground<'_>,
    given: &Given<'_>,
    set: &[u16],
    areas: &mut Areas<'_>,
) -> Verdict
    requires route_lent { Lent ground.now areas.old }
    requires shutting { Shutting ground.now given.now set.now }
    ensures value { result ≡ shut_on ground.now given.now set.now }
    ensures areas_kept { Kept areas.old areas.new }
    ensures map_bytes { length areas.new.map.now ≡ centres ground.now.window }
    ensures same_areas { SameAreas areas.old areas.new }
{
    let block = Mover {
        bounds: given.query.block,
        base: given.block_base,
    };
    if !set_pass::is_minimal_block(ground, &block, set, areas) {
        return Verdict::Spare;
    }
    if !lets_allowed(ground, given.query.allow, given.allow_base, set, areas) {
        return Verdict::Shut;
    }
    Verdict::Wall
}
