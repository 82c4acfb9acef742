// A number of a pattern written, and how many bytes it takes. Apart from the lines: a digit or a sign that is wrong is refused without
// their loops.
#![tactic(auto)]

ghost use Rattle.std.specs.Prelude.{◌≡◌, ◌+◌, ◌≤◌, length};
ghost use Rattle.text_forms.specs.Forms.{decimal, signed};
ghost use Rattle.text_forms.specs.Patterns.{piece, form_of};
ghost use Rattle.text_forms.specs.Writing.{Put};

use text_forms::{NEGATIVE, WORD};

// How many digits a number has.
fn digit_count(n: u32) -> usize
    ensures { result ≡ length (decimal n) }
{
    let mut v = n;
    let mut k = 1;
    while 9 < v {
        v /= 10;
        k += 1;
    }
    k
}

fn number_put(out: &mut [u8], at: usize, n: u32) -> usize
    requires { at + length (decimal n) ≤ length out.old }
    ensures { Put (decimal n) out.old at out.new result }
{
    if n < 10 {
        out[at] = b'0' + n as u8;
        return at + 1;
    }
    let i = number_put(out, at, n / 10);
    out[i] = b'0' + (n % 10) as u8;
    i + 1
}

// How many bytes a signed number has.
fn sign_count(x: u32) -> usize
    ensures { result ≡ length (signed x) }
{
    if x < NEGATIVE {
        return digit_count(x);
    }
    digit_count(WORD - x + 1) + 1
}

fn integer_put(out: &mut [u8], at: usize, x: u32) -> usize
    requires { at + length (signed x) ≤ length out.old }
    ensures { Put (signed x) out.old at out.new result }
{
    if x < NEGATIVE {
        return number_put(out, at, x);
    }
    out[at] = b'-';
    number_put(out, at + 1, WORD - x + 1)
}

// How many bytes a number of a pattern has.
pub fn field_count(c: u8, x: u32) -> usize
    ensures { result ≡ length ((form_of (piece c)).spell x) }
{
    if c == b'#' {
        return sign_count(x);
    }
    digit_count(x)
}

// Writes a number of a pattern where it has room.
pub fn field_put(out: &mut [u8], at: usize, c: u8, x: u32) -> usize
    requires { at + length ((form_of (piece c)).spell x) ≤ length out.old }
    ensures { Put ((form_of (piece c)).spell x) out.old at out.new result }
{
    if c == b'#' {
        return integer_put(out, at, x);
    }
    number_put(out, at, x)
}
