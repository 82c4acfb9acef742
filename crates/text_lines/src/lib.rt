// A line walked by its pattern: whether the pattern can be read and how many numbers it has, where the line ends, and its numbers stored.
// Apart from the readers: a wrong answer of theirs is refused without these loops.
#![tactic(auto)]

ghost use Rattle.std.specs.Prelude.{◌≡◌, true, ◌≤◌, length};
ghost use Rattle.text_forms.specs.Patterns.{piece, good, fields, repeats, opens_by};
ghost use Rattle.text_lines.specs.Answers.{PassRead, Stored};
ghost use Rattle.text_lines.specs.Inner.{StoredIn};

// Whether a byte of a pattern may follow a number: no digit and no number.
fn opens(c: u8) -> bool
    ensures { result ≡ opens_by (piece c) }
{
    !text_marks::is_number(c) && !c.is_ascii_digit()
}

// Whether no number of the pattern is followed by a digit or a number.
pub fn readable(pattern: &[u8]) -> bool
    ensures { result ≡ good pattern.now }
{
    let mut after_number = false;
    for &c in pattern {
        if after_number && !opens(c) {
            return false;
        }
        after_number = text_marks::is_number(c);
    }
    true
}

// Whether lines of the pattern can stand one after the other.
pub fn can_repeat(pattern: &[u8]) -> bool
    ensures { result ≡ repeats pattern.now }
{
    match pattern {
        [c, ..] => opens(*c) && readable(pattern),
        [] => false,
    }
}

// How many numbers the pattern has.
pub fn width(pattern: &[u8]) -> usize
    ensures { result ≡ fields pattern.now }
{
    pattern
        .iter()
        .filter(|&&c| text_marks::is_number(c))
        .count()
}

// The place after a line that stands there, or the place at fault. The line's numbers go to the front of out, as many as it has room for.
fn walk(s: &[u8], at: usize, pattern: &[u8], out: &mut [u32]) -> Result<usize, usize>
    requires at_in_bounds { at ≤ length s.now }
    requires pattern_value { good pattern.now ≡ true }
    ensures passed { PassRead pattern.now s.now at result }
    ensures stored { StoredIn pattern.now s.now at out.old out.new }
{
    let mut i = at;
    let mut k = 0;
    for &c in pattern {
        if text_marks::is_number(c) {
            let number = text_numbers::field_at(s, i, c)?;
            if k < out.len() {
                out[k] = number.value;
                k += 1;
            }
            i = number.next;
        } else {
            if i == s.len() || s[i] != c {
                return Err(i);
            }
            i += 1;
        }
    }
    Ok(i)
}

// The place after a line that stands there, or the place at fault.
pub fn line_end(s: &[u8], at: usize, pattern: &[u8]) -> Result<usize, usize>
    requires at_in_bounds { at ≤ length s.now }
    requires pattern_value { good pattern.now ≡ true }
    ensures { PassRead pattern.now s.now at result }
{
    walk(s, at, pattern, &mut [])
}

// Puts the numbers of a line that stands there to the front of out.
pub fn store(s: &[u8], at: usize, pattern: &[u8], out: &mut [u32])
    requires at_in_bounds { at ≤ length s.now }
    requires pattern_value { good pattern.now ≡ true }
    requires pattern_in_bounds { fields pattern.now ≤ length out.old }
    ensures { Stored pattern.now s.now at out.old out.new }
{
    let _ = walk(s, at, pattern, out);
}
