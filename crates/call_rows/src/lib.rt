// Check 16, on the numbers, rows and kept routes of a record.
#![tactic(auto)]

ghost use Rattle.std.specs.Prelude.{◌≡◌, true, ◌&&◌, ℕ, ◌+◌, ◌*◌, ◌≤◌, ltb, length};
ghost use Rattle.base_laws.specs.Lists.{all_of, below, ascends};
ghost use Rattle.ground_rects.specs.Windows.{window_fits};
ghost use Rattle.rule_calls.specs.RecordCheck.{row_fits};
ghost use Rattle.call_rows.specs.Figures.{figures_fit, cap_of, routes_pass};

use base_model::{Limits, POINTS, Query, RESULT_LIMIT, ROW, RUNNING, Record, SLOTS};

// Whether the reason is named, the placement number right, and evaluations and layouts within their limits.
#[tactic(auto, unfolding(crate::specs::Figures::figures_fit, rule_calls::specs::RecordCheck::layouts_fit))]
pub fn numbers_fit(limits: Limits, n: usize, rec: Record) -> bool
    ensures { result ≡ figures_fit limits n rec }
{
    RUNNING <= rec.reason
        && rec.reason <= RESULT_LIMIT
        && rec.placements as usize == n
        && rec.evaluations <= limits.states
        && rec.layouts <= limits.results
        && (rec.layouts < limits.results || rec.reason != RUNNING)
}

// Whether the members ascend strictly and each is one of n placements.
#[tactic(auto, using(crate::proofs::Tests::climbing))]
pub fn members_fit(set: &[u16], n: usize) -> bool
    ensures { result ≡ (ascends set.now && all_of (λ (i : ℕ). ltb i n) set.now) }
{
    // one above the member before
    let mut low = 0;
    for x in set {
        let x = *x as usize;
        if x < low || x >= n {
            return false;
        }
        low = x + 1;
    }
    true
}

// Whether row k has at most six members, in ascending order, each one of n placements.
#[tactic(auto, using(crate::proofs::Rows::row_many))]
fn row_fits(area: &[u16], k: usize, n: usize) -> bool
    requires { 7 * k + 7 ≤ length area.now }
    ensures { result ≡ row_fits n area.now k }
{
    let at = ROW * k;
    let count = area[at] as usize;
    count <= SLOTS && members_fit(&area[at + 1..at + 1 + count], n)
}

#[tactic(auto, using(crate::proofs::Tests::below_none, crate::proofs::Tests::below_more))]
pub fn rows_fit(area: &[u16], count: usize, n: usize) -> bool
    requires { 7 * count ≤ length area.now }
    ensures { result ≡ all_of (row_fits n area.now) (below count) }
{
    for k in 0..count {
        if !row_fits(area, k, n) {
            return false;
        }
    }
    true
}

// How many points a kept route may have: as many as there are centres, none without an allowed mover.
#[tactic(auto, unfolding(crate::specs::Figures::cap_of))]
pub fn route_cap(query: Query) -> usize
    requires { window_fits 8192 8192 query.window ≡ true }
    ensures { (result ≡ cap_of query) × (result ≤ 1048576) }
{
    match query.allow {
        None => 0,
        Some(_) => call_lengths::centres(query.window),
    }
}

// Whether each of the routes has at most `cap` points, and all together have at most 1,000,000.
#[tactic(auto, using(crate::proofs::Tests::adding))]
pub fn routes_fit(routes: &[u32], cap: usize) -> bool
    requires { (length routes.now ≤ 32) × (cap ≤ 1048576) }
    ensures { result ≡ routes_pass cap routes.now }
{
    let mut sum = 0;
    for points in routes {
        let points = *points as usize;
        if points > cap {
            return false;
        }
        sum += points;
    }
    sum <= POINTS
}
