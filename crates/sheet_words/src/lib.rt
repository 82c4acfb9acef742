// The words of a sheet as numbers: edges, rectangles, and the caps that are left once the sheet stands in its areas. Apart from the
// readers, which look at no word.
#![tactic(auto)]

ghost use Rattle.std.specs.Prelude.{◌≡◌, ◌+◌, ◌≤◌, length, drop};
ghost use Rattle.sheet_form.specs.Sheets.{signed_of, rect_of};
ghost use Rattle.sheet_words.specs.Caps.{few_centres, caps_left};

use base_model::Rect;
use sheet_form::{LIMITS, MOST_CENTRES, MOST_STATES, WINDOW};

// The most states of a sheet, as a word.
const STATES: u32 = MOST_STATES as u32;

// The number that a word of 32 bits stands for.
pub fn edge(word: u32) -> i32
    ensures { result ≡ signed_of word }
{
    word.cast_signed()
}

// The rectangle whose four edges stand in a row of words.
pub fn rect_in(words: &[u32], at: usize) -> Rect
    requires { at + 4 ≤ length words.now }
    ensures { result ≡ rect_of (drop at words.now) }
{
    Rect {
        left: edge(words[at]),
        top: edge(words[at + 1]),
        right: edge(words[at + 2]),
        bottom: edge(words[at + 3]),
    }
}

// Whether the window is empty or has at most 256 centres.
fn few_centres(w: Rect) -> bool
    ensures { result ≡ few_centres w }
{
    !ground_rects::nonempty(w) || ground_rects::width(w) * ground_rects::height(w) <= MOST_CENTRES
}

// The caps that `read_sheet` leaves: the window's centres and the states.
pub fn within_caps(fixed: &[u32]) -> bool
    requires { length fixed.now ≡ 20 }
    ensures { result ≡ caps_left fixed.now }
{
    fixed[LIMITS] <= STATES && few_centres(rect_in(fixed, WINDOW))
}
