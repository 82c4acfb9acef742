// Rectangles and windows: what a rectangle keeps a mover off, and the tests of a window, an end and a mover.
#![tactic(auto)]

ghost use Rattle.std.specs.Prelude.{◌≡◌, true, ◌&&◌, ◌+◌, ◌*◌, ◌<◌, ◌≤◌, pos, ◌<ℤ◌, length};
ghost use Rattle.std.specs.Int.Signed.{le_z};
ghost use Rattle.ground_rects.specs.Rects.{nonempty, holds, intersects, keeps_off, small};
ghost use Rattle.ground_rects.specs.Windows.{size_fits, width, height, window_fits, in_window};
ghost use Rattle.ground_rects.specs.Spans.{off_axis, ClippedAxis, Clipped, nth_rect};

use base_model::{Bounds, CELLS, CENTRES, Position, REACH, Rect, SIDES};
use std::ops::Range;

// A part of a window: columns left to right and rows top to bottom, right and bottom exclusive.
#[derive(Clone, Copy)]
pub struct Span {
    pub left: usize,
    pub top: usize,
    pub right: usize,
    pub bottom: usize,
}

// Rectangle i of a row of numbers, four edges each.
#[tactic(auto, unfolding(crate::specs::Spans::nth_rect, crate::specs::Rects::rect))]
pub fn rect_at(row: &[i32], i: usize) -> Rect
    requires { i * 4 + 4 ≤ length row.now }
    ensures { result ≡ nth_rect row.now i }
{
    let at = i * SIDES;
    Rect {
        left: row[at],
        top: row[at + 1],
        right: row[at + 2],
        bottom: row[at + 3],
    }
}

// Whether the rectangle has a pixel.
#[tactic(auto, unfolding(crate::specs::Rects::nonempty))]
pub fn nonempty(r: Rect) -> bool
    ensures { result ≡ nonempty r }
{
    r.left < r.right && r.top < r.bottom
}

// Whether r lies wholly inside w.
#[tactic(auto, unfolding(crate::specs::Rects::holds))]
pub fn holds(w: Rect, r: Rect) -> bool
    ensures { result ≡ holds w r }
{
    w.left <= r.left && w.top <= r.top && r.right <= w.right && r.bottom <= w.bottom
}

// Whether the rectangles share a pixel.
#[tactic(auto, unfolding(crate::specs::Rects::intersects))]
pub fn intersects(a: Rect, b: Rect) -> bool
    ensures { result ≡ intersects a b }
{
    a.left < b.right && b.left < a.right && a.top < b.bottom && b.top < a.bottom
}

#[tactic(auto, unfolding(crate::specs::Spans::off_axis))]
fn off_axis(low: i32, high: i32, back: u32, ahead: u32, x: u32) -> bool
    ensures { result ≡ off_axis low high back ahead (pos x) }
{
    let x = x as i64;
    low as i64 - back as i64 <= x && x < high as i64 + ahead as i64
}

// Whether r keeps the mover off the pixel (x, y).
#[tactic(auto, unfolding(crate::specs::Rects::keeps_off, crate::specs::Spans::off_axis))]
pub fn keeps_off(r: Rect, mover: Bounds, x: u32, y: u32) -> bool
    ensures { result ≡ keeps_off r mover (pos x) (pos y) }
{
    off_axis(r.left, r.right, mover.right, mover.left, x)
        && off_axis(r.top, r.bottom, mover.bottom, mover.top, y)
}

// The columns x from `from` up to `to` with low − back ≤ x < high + ahead, counted from `from`.
fn clip_axis(low: i32, high: i32, back: u32, ahead: u32, from: i32, to: i32) -> Range<usize>
    requires { from <ℤ to }
    ensures { ClippedAxis low high back ahead from to result.start result.end }
{
    let from = from as i64;
    let to = to as i64;
    let l = (low as i64 - back as i64).clamp(from, to);
    let h = (high as i64 + ahead as i64).clamp(from, to);
    (l - from) as usize..(h - from) as usize
}

// The centres of the window off which r keeps the mover.
pub fn clip(r: Rect, window: Rect, mover: Bounds) -> Span
    requires { (nonempty window ≡ true) × (small mover ≡ true) }
    ensures { Clipped r window mover result }
{
    let x = clip_axis(
        r.left,
        r.right,
        mover.right,
        mover.left,
        window.left,
        window.right,
    );
    let y = clip_axis(
        r.top,
        r.bottom,
        mover.bottom,
        mover.top,
        window.top,
        window.bottom,
    );
    Span {
        left: x.start,
        top: y.start,
        right: x.end,
        bottom: y.end,
    }
}

// Whether the four bounds are at most 256.
#[tactic(auto, unfolding(crate::specs::Rects::small))]
pub fn small(m: Bounds) -> bool
    ensures { result ≡ small m }
{
    m.left <= REACH && m.top <= REACH && m.right <= REACH && m.bottom <= REACH
}

// Whether the position lies in the window.
#[tactic(auto, unfolding(crate::specs::Windows::in_window))]
pub fn in_window(w: Rect, p: Position) -> bool
    ensures { result ≡ in_window w p }
{
    // the window as an obstacle to a mover of one pixel
    let point = Bounds {
        left: 0,
        top: 0,
        right: 0,
        bottom: 0,
    };
    keeps_off(w, point, p.x, p.y)
}

// Whether a map may have so many cells each way.
#[tactic(auto, unfolding(crate::specs::Windows::size_fits))]
pub fn size_fits(across: u32, down: u32) -> bool
    ensures { result ≡ size_fits across down }
{
    1 <= across && across <= CELLS && 1 <= down && down <= CELLS
}

// The columns of a window.
pub fn width(w: Rect) -> usize
    requires { nonempty w ≡ true }
    ensures { (result ≡ width w) × (result < 4294967296) }
{
    (w.right as i64 - w.left as i64) as usize
}

// The rows of a window.
pub fn height(w: Rect) -> usize
    requires { nonempty w ≡ true }
    ensures { (result ≡ height w) × (result < 4294967296) }
{
    (w.bottom as i64 - w.top as i64) as usize
}

// Whether the edges lie on an axis of so many pixels.
fn on_axis(low: i32, high: i32, pixels: u32) -> bool
    ensures { result ≡ (le_z (pos 0) low && le_z high (pos pixels)) }
{
    0 <= low && high as i64 <= pixels as i64
}

// Whether the window is one of a map of so many pixels, with few enough centres.
#[tactic(auto, unfolding(crate::specs::Windows::window_fits, crate::specs::Windows::centres))]
pub fn window_fits(w: Rect, across: u32, down: u32) -> bool
    ensures { result ≡ window_fits across down w }
{
    nonempty(w)
        && on_axis(w.left, w.right, across)
        && on_axis(w.top, w.bottom, down)
        && width(w) * height(w) <= CENTRES
}
