// Clearing the areas of a call up to their lengths.
#![tactic(auto)]

ghost use Rattle.std.specs.Prelude.{◌≡◌, true, length};
ghost use Rattle.ground_rects.specs.Windows.{window_fits};
ghost use Rattle.rule_layouts.specs.Inputs.{Inputs};
ghost use Rattle.rule_search.specs.Frames.{begun};
ghost use Rattle.rule_calls.specs.Areas.{work_fits, cleared, store_of};
ghost use Rattle.call_lengths.specs.Lent.{work_of, store_of_areas};
ghost use Rattle.call_clear.specs.Room.{StoreRoom};
ghost use Rattle.call_lengths.specs.Same.{SameWork, SameStore};

use base_model::{Limits, Query, ROW, Rect, SLOTS};
use call_lengths::{Store, Work};

// Clears the working areas up to their lengths.
#[tactic(auto, using(crate::proofs::Cleared::cleared_laid), unfolding(rule_calls::specs::Areas::work_fits))]
pub fn clear_work(window: Rect, work: &mut Work<'_>)
    requires { (window_fits 8192 8192 window ≡ true) × (work_fits window (work_of work.old) ≡ true) }
    ensures cleared { work_of work.new ≡ cleared window (work_of work.old) }
    ensures same_work { SameWork work.old work.new }
{
    let c = call_lengths::centres(window);
    base_areas::clear(work.counts, call_lengths::counts_length(window), 0);
    base_areas::clear(work.map, c, 0);
    base_areas::clear(work.queue, c, 0);
    base_areas::clear(work.predecessors, c, 0);
    base_areas::clear(work.route, c, 0);
}

// Clears the areas that hold a search up to their lengths, as a search that has begun leaves them.
#[tactic(auto, using(crate::proofs::Cleared::begun_laid))]
pub fn clear_store(query: Query, limits: Limits, places: usize, store: &mut Store<'_>)
    requires { StoreRoom query limits places store.old.lists.now store.old.visited.now store.old.layouts.now store.old.points.now }
    ensures cleared { (i : Inputs) → i.query ≡ query → length i.places ≡ places
        → store_of_areas store.new ≡ store_of i limits begun (store_of_areas store.old) }
    ensures same_store { SameStore store.old store.new }
{
    base_areas::clear(store.lists, SLOTS * places, 0);
    base_areas::clear(store.visited, ROW * limits.states as usize, 0);
    base_areas::clear(store.layouts, ROW * limits.results as usize, 0);
    base_areas::clear(store.points, call_lengths::points_length(query, limits), 0);
}
