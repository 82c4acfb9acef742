// Lines written by their pattern, at a place of a lent area. `put_line` answers every input; it has no `requires`.
#![tactic(auto)]

ghost use Rattle.std.specs.Prelude.{◌≡◌, true, ◌+◌, ◌≤◌, leb, length};
ghost use Rattle.text_forms.specs.Patterns.{line, piece, is_number, form_of, fields};
ghost use Rattle.text_forms.specs.Writing.{Put};
ghost use Rattle.text_write.specs.Writing.{Writes};
ghost use Rattle.text_write.specs.Inner.{Decides};

// Why `put_line` wrote nothing: the line has no room, or the values are not those of such a line.
#[derive(Clone, Copy, PartialEq, Eq, Debug)]
pub enum Unwritten {
    NoRoom,
    Values,
}

// Whether a value is of a number of a pattern; any is of a signed one, which has no limit.
fn in_field(c: u8, x: u32) -> bool
    requires { is_number (piece c) ≡ true }
    ensures { Decides ((form_of (piece c)).fits x) result }
{
    text_marks::limit(c).is_none_or(|most| x <= most)
}

// Whether the values are those of a line, all of them.
fn in_line(pattern: &[u8], values: &[u32]) -> bool
    ensures { Decides ((line pattern.now).fits values.now) result }
{
    let mut rest = values;
    for &c in pattern {
        if text_marks::is_number(c) {
            let [x, after @ ..] = rest else {
                return false;
            };
            if !in_field(c, *x) {
                return false;
            }
            rest = after;
        }
    }
    rest.is_empty()
}

// Whether a line has room in what is left.
fn line_room(left: usize, pattern: &[u8], values: &[u32]) -> bool
    requires { length values.now ≡ fields pattern.now }
    ensures { result ≡ leb (length ((line pattern.now).spell values.now)) left }
{
    let mut more = left;
    let mut rest = values;
    for &c in pattern {
        let mut n = 1;
        if text_marks::is_number(c) {
            let [x, after @ ..] = rest else {
                unreachable!()
            };
            n = text_fields::field_count(c, *x);
            rest = after;
        }
        if more < n {
            return false;
        }
        more -= n;
    }
    true
}

#[tactic(auto, using(crate::proofs::Lines::laid_room))]
fn line_put(out: &mut [u8], at: usize, pattern: &[u8], values: &[u32]) -> usize
    requires values_len { length values.now ≡ fields pattern.now }
    requires values_in_bounds { at + length ((line pattern.now).spell values.now) ≤ length out.old }
    ensures { Put ((line pattern.now).spell values.now) out.old at out.new result }
{
    let mut i = at;
    let mut rest = values;
    for &c in pattern {
        if text_marks::is_number(c) {
            let [x, after @ ..] = rest else {
                unreachable!()
            };
            i = text_fields::field_put(out, i, c, *x);
            rest = after;
        } else {
            out[i] = c;
            i += 1;
        }
    }
    i
}

// Writes a line by its pattern.
#[tactic(auto, using(text_forms::proofs::Pieces::line_count))]
pub fn put_line(
    out: &mut [u8],
    at: usize,
    pattern: &[u8],
    values: &[u32],
) -> Result<usize, Unwritten>
    ensures { Writes (line pattern.now) values.now out.old at out.new result }
{
    if !in_line(pattern, values) {
        return Err(Unwritten::Values);
    }
    if out.len() < at || !line_room(out.len() - at, pattern, values) {
        return Err(Unwritten::NoRoom);
    }
    Ok(line_put(out, at, pattern, values))
}
