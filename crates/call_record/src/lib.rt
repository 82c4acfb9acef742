// Check 16, on a record and the areas of its search.
#![tactic(auto)]

ghost use Rattle.std.specs.Prelude.{◌≡◌, List, ℕ, ◌/◌, length};
ghost use Rattle.rule_layouts.specs.Flat.{inputs_of};
ghost use Rattle.rule_calls.specs.Areas.{store_in};
ghost use Rattle.rule_calls.specs.RecordCheck.{record_fits};
ghost use Rattle.call_record.specs.Given.{ChecksFound};

use base_model::{Limits, NUMBERS, Record, SLOTS};
use call_lengths::Kept;
use call_lists::lists_fit;
use call_rows::{numbers_fit, route_cap, routes_fit, rows_fit};
use set_places::Given;

// How many lists there are at most, as the number of 32 bits that it is compared with.
const MOST_LISTS: u32 = SLOTS as u32;

// Check 16 on what the checks before it have let pass.
pub fn record_fits(given: &Given<'_>, limits: Limits, rec: Record, kept: &Kept<'_, '_>) -> bool
    requires { ChecksFound given.now.query limits (length given.now.places.numbers.now / 4) given.now.places.groups.now
        given.now.places.numbers.now given.now.places.edges.now kept.now.lists.now kept.now.visited.now kept.now.layouts.now }
    ensures { (block_base allow_base points : List ℕ) → result
        ≡ record_fits
        (inputs_of given.now.query given.now.places.groups.now given.now.places.numbers.now given.now.places.edges.now
        block_base allow_base)
        rec (store_in kept.now.lists.now kept.now.visited.now kept.now.layouts.now points) limits }
{
    let n = given.places.numbers.len() / NUMBERS;
    let layouts = rec.layouts as usize;
    if !numbers_fit(limits, n, rec) {
        return false;
    }
    if !rows_fit(kept.visited, rec.evaluations as usize, n) {
        return false;
    }
    if !rows_fit(kept.layouts, layouts, n) {
        return false;
    }
    if !routes_fit(&rec.routes[..layouts], route_cap(given.query)) {
        return false;
    }
    if rec.lists > MOST_LISTS {
        return false;
    }
    lists_fit(n, &given.places, rec, kept.lists)
}
