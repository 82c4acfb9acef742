// What is looked at in a set of placements before any map: the slots of its groups, and whether its footprints overlap.
#![tactic(auto)]

ghost use Rattle.std.specs.Prelude.{◌≡◌, ℕ, ◌+◌, ◌*◌, ◌/◌, ◌≤◌, length};
ghost use Rattle.base_laws.specs.Lists.{any_of};
ghost use Rattle.set_places.specs.Given.{places_at};
ghost use Rattle.set_blocked.specs.Blocked.{Named};
ghost use Rattle.set_extend.specs.Join.{Rowed};
ghost use Rattle.set_clash.specs.Clashes.{crowded, clashing};

use set_places::FlatPlaces;

// Whether a group's slot count is exceeded.
pub fn over_slots(places: &FlatPlaces<'_>, set: &[u16]) -> bool
    requires { Rowed (length places.now.numbers.now / 4) places.now.groups.now places.now.numbers.now places.now.edges.now set.now }
    ensures { (n : ℕ) → result ≡ any_of (crowded (places_at n places.now) set.now) set.now }
{
    set.iter()
        .any(|&m| places.slots_taken(set, m as usize).is_gt())
}

// Whether the footprint of placement i overlaps that of another member.
fn clashes(places: &FlatPlaces<'_>, set: &[u16], i: usize) -> bool
    requires named { Named places.now.edges.now set.now }
    requires i_in_bounds { 8 * i + 8 ≤ length places.now.edges.now }
    ensures { result ≡ clashing places.now.edges.now set.now i }
{
    let footprint = places.footprint(i);
    set.iter().any(|&m| {
        let m = m as usize;
        i != m && ground_rects::intersects(footprint, places.footprint(m))
    })
}

// Whether the footprints of two members overlap.
pub fn overlaps(places: &FlatPlaces<'_>, set: &[u16]) -> bool
    requires { Named places.now.edges.now set.now }
    ensures { result ≡ any_of (clashing places.now.edges.now set.now) set.now }
{
    set.iter().any(|&m| clashes(places, set, m as usize))
}
