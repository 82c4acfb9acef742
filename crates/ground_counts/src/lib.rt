// The difference grid: counts over a lent area, to which spans are added by their corners.
#![tactic(auto)]

ghost use Rattle.std.specs.Prelude.{◌≡◌, ◌<◌, ◌≤◌, pos, length, get_or};
ghost use Rattle.std.specs.Int.Signed.{mag};
ghost use Rattle.base_laws.specs.Ints.{up, dn};
ghost use Rattle.ground_counts.specs.Counts.{bumped, stamp_of, Scan, SumsFit, SpansReady, Counted, Stampable};

use ground_rects::Span;

// Adds 1 at k, or takes 1 away.
#[tactic(auto, unfolding(crate::specs::Counts::bumped))]
fn bump(v: &mut [i32], k: usize, by: i32)
    requires { ((k < length v.old) × (mag (get_or v.old k (pos 0)) < 2147483647)) × ((up by ≤ 1) × (dn by ≤ 1)) }
    ensures { v.new ≡ bumped v.old k by }
{
    v[k] += by;
}

// Adds to each entry, from the one at d on, the entry d before it.
fn scan(v: &mut [i32], d: usize, n: usize)
    requires { (0 < d) × ((d ≤ n) × ((n ≤ length v.old) × SumsFit v.old d n)) }
    ensures { Scan v.old d n v.new }
{
    for i in d..n {
        v[i] += v[i - d];
    }
}

// Adds the corners of a span.
#[tactic(auto, unfolding(crate::specs::Counts::stamp_of, crate::specs::Counts::live))]
pub fn add_rect(counts: &mut [i32], stride: usize, p: Span)
    requires { Stampable stride p counts.old }
    ensures { counts.new ≡ stamp_of stride p counts.old }
{
    let Span {
        left,
        top,
        right,
        bottom,
    } = p;
    if right <= left || bottom <= top {
        return;
    }
    let high = top * stride;
    let low = bottom * stride;
    bump(counts, high + left, 1);
    bump(counts, high + right, -1);
    bump(counts, low + left, -1);
    bump(counts, low + right, 1);
}

// Turns corners into counts: entry y * stride + x is then the number of spans that cover column x of row y.
pub fn finish(counts: &mut [i32], stride: usize, n: usize)
    requires { (0 < stride) × ((stride ≤ n) × SpansReady stride n counts.old) }
    ensures { Counted stride n counts.old counts.new }
{
    scan(counts, 1, n);
    scan(counts, stride, n);
}
