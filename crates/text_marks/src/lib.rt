// What a byte of a pattern stands for. Apart from the readers and the printer, which both ask it: a wrong mark is refused here, without
// them.
#![tactic(auto)]

ghost use Rattle.std.specs.Prelude.{◌≡◌};
ghost use Rattle.text_forms.specs.Patterns.{piece, limit_of, is_number};
ghost use Rattle.text_marks.specs.Limits.{some_limit};

// The largest number of an unsigned field of a pattern, none where the byte is no such field.
pub fn limit(c: u8) -> Option<u32>
    ensures { result ≡ some_limit (limit_of c) }
{
    match c {
        b'$' => Some(4294967295),
        b'%' => Some(65535),
        b'&' => Some(255),
        b'!' => Some(1),
        _ => None,
    }
}

// Whether a byte of a pattern is a number.
pub fn is_number(c: u8) -> bool
    ensures { result ≡ is_number (piece c) }
{
    c == b'#' || limit(c).is_some()
}
