// Check 16, on the lists of a record.
#![tactic(auto)]

ghost use Rattle.std.specs.Prelude.{◌≡◌, ℕ, ◌/◌, ◌<◌, length};
ghost use Rattle.base_laws.specs.Lists.{all_of, below};
ghost use Rattle.rule_layouts.specs.Boards as boards;
ghost use Rattle.set_places.specs.Given.{places_at};
ghost use Rattle.call_lists.specs.Lent.{apart, entry_fits, head_fits, stood, list_passes, Beside, Entries, Lists};

use base_model::{Record, SLOTS};
use set_places::FlatPlaces;

// Whether placement e is no member and overlaps none.
fn stands_apart(places: &FlatPlaces<'_>, members: &[u16], e: usize) -> bool
    requires { Beside (length places.now.numbers.now / 4) places.now members.now e }
    ensures { result ≡ apart places.now.edges.now members.now e }
{
    let own = places.footprint(e);
    members.iter().all(|&m| {
        let m = m as usize;
        e != m && !ground_rects::intersects(own, places.footprint(m))
    })
}

// Whether placement e may join the members.
#[tactic(auto, using(crate::proofs::Joins::join_parts))]
fn may_join(places: &FlatPlaces<'_>, members: &[u16], e: usize) -> bool
    requires { Beside (length places.now.numbers.now / 4) places.now members.now e }
    ensures { result ≡ boards.may_join (places_at (length places.now.numbers.now / 4) places.now) members.now e }
{
    stands_apart(places, members, e) && places.slots_taken(members, e).is_lt()
}

// Whether the entries are placements that may join the members.
fn entries_join(n: usize, places: &FlatPlaces<'_>, members: &[u16], entries: &[u16]) -> bool
    requires { Entries n places.now members.now }
    ensures { result ≡ all_of (entry_fits (places_at n places.now) members.now) entries.now }
{
    entries.iter().all(|&e| {
        let e = e as usize;
        e < n && may_join(places, members, e)
    })
}

// Whether next ≤ length ≤ n, and next is above 0 where something stands on the list.
#[tactic(auto, unfolding(crate::specs::Lent::head_fits))]
fn head_fits(n: usize, next: usize, length: usize, stands: bool) -> bool
    ensures { result ≡ head_fits n next length stands }
{
    next <= length && length <= n && (!stands || next > 0)
}

// Whether a list or a pending set stands on list k.
#[tactic(auto, unfolding(crate::specs::Lent::stood))]
fn stood_on(rec: Record, k: usize) -> bool
    requires { k < 6 }
    ensures { result ≡ stood rec k }
{
    k + 1 < rec.lists as usize || rec.pending
}

// Whether each list's entries are placements that may join its set. The set's members are the placements last taken from the lists below.
pub fn lists_fit(n: usize, places: &FlatPlaces<'_>, rec: Record, lists: &[u16]) -> bool
    requires { Lists n places.now rec lists.now }
    ensures { result ≡ all_of (list_passes (places_at n places.now) rec lists.now) (below rec.lists) }
{
    // the two rows are copied alone: read by index in the record, they would have it copied whole, and the compiler would not see
    // that there are at most six lists
    let lengths = rec.lengths;
    let nexts = rec.nexts;
    let mut members = [0u16; SLOTS];
    for k in 0..rec.lists as usize {
        let length = lengths[k] as usize;
        let next = nexts[k] as usize;
        if !head_fits(n, next, length, stood_on(rec, k)) {
            return false;
        }
        let at = k * n;
        if !entries_join(n, places, &members[..k], &lists[at..at + length]) {
            return false;
        }
        // then nothing stands on the list, so that it is the last
        if next == 0 {
            return true;
        }
        members[k] = lists[at + next - 1];
    }
    true
}
