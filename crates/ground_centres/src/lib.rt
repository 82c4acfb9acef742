// The centre of a window at a pixel.
#![tactic(auto)]

ghost use Rattle.std.specs.Prelude.{◌≡◌, true, ◌<◌};
ghost use Rattle.ground_rects.specs.Windows.{centres, window_fits, in_window, centre_at};

use base_model::{Position, Rect};

// The number of the centre at a pixel of the window.
pub fn centre_at(window: Rect, p: Position) -> usize
    requires window_value { window_fits 8192 8192 window ≡ true }
    requires p_value { in_window window p ≡ true }
    ensures { (result ≡ centre_at window p) × (result < centres window) }
{
    let width = ground_rects::width(window);
    route_find::local_index(p.x, p.y, window.left, window.top, width)
}
