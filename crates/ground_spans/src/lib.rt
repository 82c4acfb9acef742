// A span of a map changed row by row: its bytes become 1, one more or one less.
#![tactic(auto)]

ghost use Rattle.std.specs.Prelude.{◌≡◌, true, map as mapped};
ghost use Rattle.base_laws.specs.Lists.{all_of};
ghost use Rattle.ground_spans.specs.Changes.{made, allows, SpanFits, SpanAllows, SpanAsked, SpanChanged};

use ground_rects::Span;

// What is done to a byte: it becomes 1, one more or one less.
#[derive(Clone, Copy)]
pub enum Change {
    Mark,
    Raise,
    Lower,
}

// Whether the byte can be changed so: it can't pass 255 or zero.
#[tactic(auto, unfolding(crate::specs::Changes::allows, rule_covers::specs::Covers::may_rise, rule_covers::specs::Covers::may_fall))]
fn allows(change: Change, b: u8) -> bool
    ensures { result ≡ allows change b }
{
    match change {
        Change::Mark => true,
        Change::Raise => b < 255,
        Change::Lower => 0 < b,
    }
}

// Whether each byte of the row can be changed so.
fn row_allows(change: Change, row: &[u8]) -> bool
    ensures { result ≡ all_of (allows change) row.now }
{
    row.iter().all(|&b| allows(change, b))
}

// Whether each byte of the span can be changed so.
pub fn span_allows(change: Change, map: &[u8], width: usize, span: Span) -> bool
    requires { SpanFits width span map.now }
    ensures { SpanAsked (allows change) width span map.now result }
{
    let Span {
        left,
        top,
        right,
        bottom,
    } = span;
    if right <= left {
        return true;
    }
    for y in top..bottom {
        let a = y * width + left;
        let b = y * width + right;
        if !row_allows(change, &map[a..b]) {
            return false;
        }
    }
    true
}

// Changes each byte of the row.
fn change_row(change: Change, row: &mut [u8])
    requires { all_of (allows change) row.old ≡ true }
    ensures { row.new ≡ mapped (made change) row.old }
{
    match change {
        Change::Mark => row.fill(1),
        Change::Raise => {
            for b in row {
                *b += 1;
            }
        }
        Change::Lower => {
            for b in row {
                *b -= 1;
            }
        }
    }
}

// Changes each byte of the span, a row at a time.
pub fn change_span(change: Change, map: &mut [u8], width: usize, span: Span)
    requires span_fits { SpanFits width span map.old }
    requires span_allows { SpanAllows (allows change) width span map.old }
    ensures { SpanChanged (made change) width span map.old map.new }
{
    let Span {
        left,
        top,
        right,
        bottom,
    } = span;
    if right <= left {
        return;
    }
    for y in top..bottom {
        let a = y * width + left;
        let b = y * width + right;
        change_row(change, &mut map[a..b]);
    }
}
