// Covering a baseline with a rectangle, and lifting it off: the counts of the centres that it reaches become one more, or one less.
#![tactic(auto)]

ghost use Rattle.std.specs.Prelude.{◌≡◌};
ghost use Rattle.base_model.specs.Answers.{reply_of};
ghost use Rattle.ground_spans.specs.Changes.{made, allows};
ghost use Rattle.rule_covers.specs.Covers.{change_call, cover_call, lift_call};

use base_model::{Bounds, PIXELS, Rect, Refusal};
use ground_spans::Change;

// Refuses 2, 4, 6, 15 and 20, and then writes nothing. Accepted, it changes the count of each centre off which the rectangle keeps the
// mover.
fn change_counts(
    change: Change,
    window: Rect,
    mover: Bounds,
    rect: Rect,
    baseline: &mut [u8],
) -> Result<(), Refusal>
    ensures { change_call window mover rect (allows change) (made change) baseline.old
        ≡ record { answer = reply_of result; baseline = baseline.new } }
{
    if !ground_rects::window_fits(window, PIXELS, PIXELS) {
        return Err(Refusal::WindowInvalid);
    }
    if !ground_rects::small(mover) {
        return Err(Refusal::BoundTooLarge);
    }
    let width = ground_rects::width(window);
    if baseline.len() < width * ground_rects::height(window) {
        return Err(Refusal::AreaTooShort);
    }
    if !ground_rects::nonempty(rect) {
        return Err(Refusal::RectangleEmpty);
    }
    let span = ground_rects::clip(rect, window, mover);
    if !ground_spans::span_allows(change, baseline, width, span) {
        return Err(Refusal::CountOutOfRange);
    }
    ground_spans::change_span(change, baseline, width, span);
    Ok(())
}

// Covers the baseline with the rectangle: one more at exactly the centres off which it keeps the mover. Refuses 2, 4, 6, 15, and 20
// where a count would pass 255, and then writes nothing.
#[tactic(auto, unfolding(rule_covers::specs::Covers::cover_call, ground_spans::specs::Changes::made, ground_spans::specs::Changes::allows))]
pub fn cover(window: Rect, mover: Bounds, rect: Rect, baseline: &mut [u8]) -> Result<(), Refusal>
    ensures { cover_call window mover rect baseline.old
        ≡ record { answer = reply_of result; baseline = baseline.new } }
{
    change_counts(Change::Raise, window, mover, rect, baseline)
}

// Lifts the rectangle off the baseline: one less at exactly these centres. Refuses 2, 4, 6, 15, and 20 where a count would pass zero,
// and then writes nothing.
#[tactic(auto, unfolding(rule_covers::specs::Covers::lift_call, ground_spans::specs::Changes::made, ground_spans::specs::Changes::allows))]
pub fn lift(window: Rect, mover: Bounds, rect: Rect, baseline: &mut [u8]) -> Result<(), Refusal>
    ensures { lift_call window mover rect baseline.old
        ≡ record { answer = reply_of result; baseline = baseline.new } }
{
    change_counts(Change::Lower, window, mover, rect, baseline)
}
