// The distance of a placement from the entrance, squared: `footprint_center_distance_rank` with its remainder, and which of two is closer.
#![tactic(auto)]

ghost use Rattle.std.specs.Prelude.{◌≡◌, true, ◌≤◌, pos, nat_abs, ◌+ℤ◌, ◌-ℤ◌, ◌*ℤ◌};
ghost use Rattle.rule_ranks.specs.Measures.{square, squared_length, dot, cross, segment, from_first, beside_end, measure_of};
ghost use Rattle.ground_rects.specs.Windows.{size_fits};
ghost use Rattle.rule_ranks.specs.Ranks.{on_map, site_fits, footprint_fits, ranking_of, rank_call};
ghost use Rattle.rule_ranks.specs.Sizes.{Within, Sizes};
ghost use Rattle.rule_ranks.specs.Orders.{is_rank, closer_rank};

use base_model::{CELL, Position, RADIUS, Rank, Rect, Refusal, Site};
use rule_ranks::{Measure, Vector};

// ---- ways
// z².
#[tactic(auto, unfolding(rule_ranks::specs::Measures::square))]
fn square(z: i64) -> u64
    requires { nat_abs z ≤ 268435456 }
    ensures { result ≡ square z }
{
    (z * z) as u64
}

#[tactic(auto, unfolding(rule_ranks::specs::Measures::squared_length))]
fn squared_length(v: Vector) -> u64
    requires { Within 16384 v }
    ensures { result ≡ squared_length v }
{
    square(v.x) + square(v.y)
}

#[tactic(auto, unfolding(rule_ranks::specs::Measures::dot))]
fn dot(a: Vector, b: Vector) -> i64
    requires { Within 16384 a × Within 16384 b }
    ensures { result ≡ dot a b }
{
    a.x * b.x + a.y * b.y
}

#[tactic(auto, unfolding(rule_ranks::specs::Measures::cross))]
fn cross(a: Vector, b: Vector) -> i64
    requires { Within 16384 a × Within 16384 b }
    ensures { result ≡ cross a b }
{
    a.x * b.y - a.y * b.x
}

// From one pixel to another.
fn way(from: u32, to: u32) -> i64
    ensures { result ≡ pos to -ℤ pos from }
{
    to as i64 - from as i64
}

// From a pixel to the middle of two edges, doubled.
fn way_to_middle(from: u32, low: i32, high: i32) -> i64
    ensures { result ≡ low +ℤ high -ℤ pos 2 *ℤ pos from }
{
    low as i64 + high as i64 - 2 * (from as i64)
}

// From the entrance's first end to its second.
#[tactic(auto, unfolding(rule_ranks::specs::Measures::segment))]
fn segment(site: Site) -> Vector
    ensures { result ≡ segment site }
{
    Vector {
        x: way(site.first.x, site.second.x),
        y: way(site.first.y, site.second.y),
    }
}

// From the first end to the footprint's centre, doubled.
#[tactic(auto, unfolding(rule_ranks::specs::Measures::from_first))]
fn from_first(site: Site, footprint: Rect) -> Vector
    ensures { result ≡ from_first site footprint }
{
    Vector {
        x: way_to_middle(site.first.x, footprint.left, footprint.right),
        y: way_to_middle(site.first.y, footprint.top, footprint.bottom),
    }
}

// v less twice d.
fn less_twice(v: Vector, d: Vector) -> Vector
    requires { Within 16384 v × Within 16384 d }
    ensures { result ≡ record { x = v.x -ℤ pos 2 *ℤ d.x; y = v.y -ℤ pos 2 *ℤ d.y } }
{
    Vector {
        x: v.x - 2 * d.x,
        y: v.y - 2 * d.y,
    }
}

// ---- the measure
// Beside an end: v is the way from it.
#[tactic(auto, unfolding(rule_ranks::specs::Measures::beside_end))]
fn beside_end(radius: u32, v: Vector) -> Measure
    requires { (radius ≤ 1024) × Within 16384 v }
    ensures { result ≡ beside_end radius v }
{
    let r = radius as u64;
    Measure {
        numerator: squared_length(v),
        divisor: 4,
        limit: 4 * (r * r),
    }
}

// The distance from the nearest point of the entrance, squared.
fn measure(site: Site, footprint: Rect) -> Measure
    requires { (site.radius ≤ 1024) × Sizes site footprint }
    ensures { result ≡ measure_of site footprint }
{
    let d = segment(site);
    let point = from_first(site, footprint);
    let projection_twice = dot(point, d);
    if projection_twice <= 0 {
        return beside_end(site.radius, point);
    }
    let squared = squared_length(d);
    if projection_twice as u64 >= 2 * squared {
        return beside_end(site.radius, less_twice(point, d));
    }
    let r = site.radius as u64;
    Measure {
        numerator: square(cross(point, d)),
        divisor: 4 * squared,
        limit: 4 * (r * r) * squared,
    }
}

// ---- what is turned away
// Whether the point lies on a map of so many cells, its far edges included.
#[tactic(auto, unfolding(rule_ranks::specs::Ranks::on_map))]
fn on_map(across: u32, down: u32, p: Position) -> bool
    requires { size_fits across down ≡ true }
    ensures { result ≡ on_map across down p }
{
    p.x <= CELL * across && p.y <= CELL * down
}

// Whether the radius is not too large and the entrance's ends are two points of the map.
#[tactic(auto, unfolding(rule_ranks::specs::Ranks::site_fits, rule_ranks::specs::Ranks::same_point))]
fn site_fits(across: u32, down: u32, site: Site) -> bool
    requires { size_fits across down ≡ true }
    ensures { result ≡ site_fits across down site }
{
    site.radius <= RADIUS
        && on_map(across, down, site.first)
        && on_map(across, down, site.second)
        && site.first != site.second
}

// Whether the footprint has a pixel and lies inside the map.
#[tactic(auto, unfolding(rule_ranks::specs::Ranks::footprint_fits))]
fn footprint_fits(across: u32, down: u32, footprint: Rect) -> bool
    requires { size_fits across down ≡ true }
    ensures { result ≡ footprint_fits across down footprint }
{
    let map = Rect {
        left: 0,
        top: 0,
        right: (CELL * across) as i32,
        bottom: (CELL * down) as i32,
    };
    ground_rects::nonempty(footprint) && ground_rects::holds(map, footprint)
}

// ---- the calls
// Ranks a placement by the distance of its footprint's centre from the entrance. Refuses 1, 22 and 15; beyond the radius there is no
// rank.
pub fn rank(across: u32, down: u32, site: Site, footprint: Rect) -> Result<Option<Rank>, Refusal>
    ensures { rank_call across down site footprint ≡ ranking_of result }
{
    if !ground_rects::size_fits(across, down) {
        return Err(Refusal::MapInvalid);
    }
    if !site_fits(across, down, site) {
        return Err(Refusal::SiteInvalid);
    }
    if !footprint_fits(across, down, footprint) {
        return Err(Refusal::FootprintInvalid);
    }
    let m = measure(site, footprint);
    if m.numerator > m.limit {
        return Ok(None);
    }
    Ok(Some(Rank {
        quotient: m.numerator / m.divisor,
        remainder: m.numerator % m.divisor,
        divisor: m.divisor,
    }))
}

// The largest divisor: 4 times the squared length of the largest map's diagonal.
const MOST_PARTS: u64 = 536870912;

// Whether the numbers are a rank's.
#[tactic(auto, unfolding(rule_ranks::specs::Orders::is_rank))]
fn is_rank(k: Rank) -> bool
    ensures { result ≡ is_rank k }
{
    k.remainder < k.divisor && k.divisor <= MOST_PARTS
}

// Whether the first rank is closer than the second. What is no rank counts as farther than every rank.
#[tactic(auto, unfolding(rule_ranks::specs::Orders::closer_rank, rule_ranks::specs::Orders::lower, rule_ranks::specs::Orders::is_rank))]
pub fn closer(a: Rank, b: Rank) -> bool
    ensures { result ≡ closer_rank a b }
{
    if !is_rank(a) {
        return false;
    }
    if !is_rank(b) {
        return true;
    }
    if a.quotient != b.quotient {
        return a.quotient < b.quotient;
    }
    a.remainder * b.divisor < b.remainder * a.divisor
}
