// Digits run together, read from a text. Apart from the lines, which read no digit by itself.
#![tactic(auto)]

ghost use Rattle.std.specs.Prelude.{◌≡◌, ◌++◌, ◌-◌, ◌≤◌, length, drop, map, take_while};
ghost use Rattle.std.specs.Char.{is_ascii_digit};
ghost use Rattle.text_digits.specs.Answers.{DigitsRead};
ghost use Rattle.text_digits.specs.Inner.{Low};

// Digits that were read: how many, and the place after them.
#[derive(Clone, Copy, PartialEq, Eq, Debug)]
pub struct Row {
    pub count: usize,
    pub next: usize,
}

// Why `digits` reads none: the place at fault, more digits than the area holds, or a place beyond the text.
#[derive(Clone, Copy, PartialEq, Eq, Debug)]
pub enum RowError {
    Wrong(usize),
    Full,
    Beyond,
}

// How many digits stand first in a text.
fn digit_count(text: &[u8]) -> usize
    ensures { result ≡ length (take_while is_ascii_digit text.now) }
{
    text.iter().take_while(|c| c.is_ascii_digit()).count()
}

// Puts the values of digits to the front of out.
fn store_digits(digits: &[u8], out: &mut [u8])
    requires not_below { Low digits.now }
    requires room { length digits.now ≤ length out.old }
    ensures { out.new ≡ map (λ c. c - 48) digits.now ++ drop (length digits.now) out.old }
{
    for (k, &c) in digits.iter().enumerate() {
        out[k] = c - b'0';
    }
}

// Reads digits run together, one or more: the value of each goes to an entry of its own.
pub fn digits(s: &[u8], at: usize, out: &mut [u8]) -> Result<Row, RowError>
    ensures { DigitsRead s.now at out.old out.new result }
{
    if s.len() < at {
        return Err(RowError::Beyond);
    }
    let text = &s[at..];
    let n = digit_count(text);
    if n == 0 {
        return Err(RowError::Wrong(at));
    }
    if out.len() < n {
        return Err(RowError::Full);
    }
    store_digits(&text[..n], out);
    Ok(Row {
        count: n,
        next: at + n,
    })
}
