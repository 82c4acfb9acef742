// Numbers read from a text. Apart from the lines: a reader of numbers that takes a wrong range or sign is refused without their loops.
#![tactic(auto)]

ghost use Rattle.std.specs.Prelude.{◌≡◌, true, ◌-◌, ◌≤◌, ◌<◌, length, get_or};
ghost use Rattle.text_forms.specs.Forms.{number as number_form, integer as integer_form};
ghost use Rattle.text_forms.specs.Patterns.{piece, is_number, form_of};
ghost use Rattle.text_forms.specs.Reading.{GotAt, ReadAs};
ghost use Rattle.text_numbers.specs.Answers.{NumberRead, step_of};

use text_forms::WORD;

// The largest signed number of 32 bits.
const MOST_SIGNED: u32 = 2147483647;

// The largest number after a minus sign.
const LEAST: u32 = MOST_SIGNED + 1;

// A number that was read: its value and the place after it.
#[derive(Clone, Copy, PartialEq, Eq, Debug)]
pub struct Taken {
    pub value: u32,
    pub next: usize,
}

// Why `number` reads none: the place at fault, or that the place given is beyond the text.
#[derive(Clone, Copy, PartialEq, Eq, Debug)]
pub enum Fault {
    Wrong(usize),
    Beyond,
}

// The longest number up to max that stands where a digit up to max stands.
fn decimal_at(s: &[u8], at: usize, max: u32) -> Taken
    requires at_in_bounds { at < length s.now }
    requires bound { 48 ≤ get_or s.now at 0 }
    requires at_bound { get_or s.now at 0 ≤ 57 }
    requires at_bound_2 { get_or s.now at 0 - 48 ≤ max }
    ensures { GotAt (number_form max) s.now at result.value result.next }
{
    let top = u64::from(max);
    let mut v = u64::from(s[at] - b'0');
    for i in at + 1..s.len() {
        let c = s[i];
        if v == 0 || !c.is_ascii_digit() {
            return Taken {
                value: v as u32,
                next: i,
            };
        }
        let w = v * 10 + u64::from(c - b'0');
        if top < w {
            return Taken {
                value: v as u32,
                next: i,
            };
        }
        v = w;
    }
    Taken {
        value: v as u32,
        next: s.len(),
    }
}

// The number up to max at a place inside the text, or the place at fault.
fn number_at(s: &[u8], at: usize, max: u32) -> Result<Taken, usize>
    requires { at ≤ length s.now }
    ensures { ReadAs (number_form max) s.now at (step_of result) }
{
    if at == s.len() || !s[at].is_ascii_digit() || max < u32::from(s[at] - b'0') {
        return Err(at);
    }
    Ok(decimal_at(s, at, max))
}

// The signed number at a place inside the text, or the place at fault.
fn integer_at(s: &[u8], at: usize) -> Result<Taken, usize>
    requires { at ≤ length s.now }
    ensures { ReadAs integer_form s.now at (step_of result) }
{
    if at == s.len() {
        return Err(at);
    }
    if s[at] != b'-' {
        return number_at(s, at, MOST_SIGNED);
    }
    let b = at + 1;
    if b == s.len() || s[b] == b'0' || !s[b].is_ascii_digit() {
        return Err(b);
    }
    let r = decimal_at(s, b, LEAST);
    Ok(Taken {
        value: WORD - (r.value - 1),
        next: r.next,
    })
}

// Reads a number up to max.
pub fn number(s: &[u8], at: usize, max: u32) -> Result<Taken, Fault>
    ensures { NumberRead (number_form max) s.now at result }
{
    if s.len() < at {
        return Err(Fault::Beyond);
    }
    number_at(s, at, max).map_err(Fault::Wrong)
}

// Reads a number of a pattern, at a place inside the text, or answers the place at fault.
pub fn field_at(s: &[u8], at: usize, c: u8) -> Result<Taken, usize>
    requires at_in_bounds { at ≤ length s.now }
    requires c_value { is_number (piece c) ≡ true }
    ensures { ReadAs (form_of (piece c)) s.now at (step_of result) }
{
    match text_marks::limit(c) {
        Some(max) => number_at(s, at, max),
        None => integer_at(s, at),
    }
}
