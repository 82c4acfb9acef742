// The answer to what has arrived of an input.
#![tactic(auto)]

ghost use Rattle.sheet_reply.specs.Inner.{InFront};
ghost use Rattle.sheet_reply.specs.Replies.{Replies};

use input_arrival::Arrival;
use sheet_form::NO_SHEET;
use sheet_write::ENOUGH;

// Writes the answer: that to the text where it arrived whole and stands in the area, and otherwise the refusal 18.
// The result is the number of its bytes.
pub fn reply(input: Arrival, area: &[u8], out: &mut [u8; ENOUGH]) -> usize
    ensures replies { Replies input area.now out.old out.new result }
    ensures in_front { InFront result out.new }
{
    match input {
        Arrival::Whole(n) if n <= area.len() => { sheet_answer::answer(&area[..n], out).unwrap() }
        _ => sheet_write::write_refused(out, NO_SHEET),
    }
}
