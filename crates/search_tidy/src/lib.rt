// Clearing the unused entries of a record and its areas, once 16 has let them pass.
#![tactic(auto)]

ghost use Rattle.std.specs.Prelude.{◌≡◌, map, reverse, ◌*◌, ◌≤◌, length, take};
ghost use Rattle.base_laws.specs.Lists.{below, flat, padded};
ghost use Rattle.rule_layouts.specs.Inputs.{Inputs};
ghost use Rattle.rule_search.specs.State.{Extensions};
ghost use Rattle.rule_calls.specs.Areas.{laid, row_of, row, lists_of};
ghost use Rattle.call_lengths.specs.Lent.{store_of_areas};
ghost use Rattle.search_tidy.specs.Stores.{RowsIn, ListsIn, tidy, Sized, PartsUsed, Passing, LaidBack};
ghost use Rattle.call_lengths.specs.Same.{SameStore};

use base_model::{Limits, Query, ROW, Record, SLOTS};
use call_lengths::Store;

// Clears the unused members of the first `count` rows, and all that follows them up to n.
fn clear_rows(area: &mut [u16], count: usize, n: usize)
    requires { RowsIn area.old count n }
    ensures { area.new ≡ laid n (flat (map row (map (row_of area.old) (below count)))) area.old }
{
    for k in 0..count {
        let used = area[k * ROW] as usize;
        base_areas::clear_from(area, k * ROW + (used + 1), SLOTS - used, 0);
    }
    base_areas::clear_from(area, count * ROW, n - count * ROW, 0);
}

// Clears the unused entries of the lists, and all that follows them up to six times the placements.
fn clear_lists(area: &mut [u16], rec: Record)
    requires { ListsIn area.old rec.lengths rec.lists rec.placements }
    ensures { area.new ≡ laid (6 * rec.placements)
        (flat (map (λ (e : Extensions). padded rec.placements e.entries) (reverse (lists_of rec area.old rec.lists))))
        area.old }
{
    let places = rec.placements as usize;
    let lists = rec.lists as usize;
    for (k, used) in rec.lengths[..lists].iter().enumerate() {
        let used = *used as usize;
        base_areas::clear_from(area, k * places + used, places - used, 0);
    }
    base_areas::clear_from(area, lists * places, SLOTS * places - lists * places, 0);
}

// The numbers with zeros from `from` on.
fn cleared<const N: usize>(xs: [u32; N], from: usize) -> [u32; N]
    requires { from ≤ N }
    ensures { (result ≡ padded N (take from xs.entry)) × (length xs.entry ≡ N) }
{
    let mut out = xs;
    base_areas::clear_from(&mut out, from, N - from, 0);
    out
}

// The record with its unused entries zero.
fn tidied(rec: Record) -> Record
    requires { (rec.layouts ≤ 32) × (rec.lists ≤ 6) }
    ensures { (result ≡ tidy rec) × Sized rec }
{
    let lists = rec.lists as usize;
    Record {
        routes: cleared(rec.routes, rec.layouts as usize),
        lengths: cleared(rec.lengths, lists),
        nexts: cleared(rec.nexts, lists),
        ..rec
    }
}

// Clears all that is unused: the search that the record and the areas hold, laid back.
pub fn clear_unused(query: Query, limits: Limits, rec: Record, store: &mut Store<'_>) -> Record
    requires { PartsUsed query limits rec (store_of_areas store.old) }
    ensures back { (i : Inputs) → Passing i query limits rec (store_of_areas store.old)
        → LaidBack i limits rec (store_of_areas store.old) result (store_of_areas store.new) }
    ensures sized { Sized rec }
    ensures same_store { SameStore store.old store.new }
{
    clear_lists(store.lists, rec);
    clear_rows(
        store.visited,
        rec.evaluations as usize,
        ROW * limits.states as usize,
    );
    clear_rows(
        store.layouts,
        rec.layouts as usize,
        ROW * limits.results as usize,
    );
    let used = 2 * search_rows::kept_points(&rec.routes[..rec.layouts as usize]);
    base_areas::clear_from(
        store.points,
        used,
        call_lengths::points_length(query, limits) - used,
        0,
    );
    tidied(rec)
}
