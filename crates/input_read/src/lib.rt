// Reads an input to its end.
#![tactic(auto)]

ghost use Rattle.std.specs.Prelude.{◌≤◌, length};
ghost use Rattle.input_read.specs.Reads.{ReadOnce, ReadOn, AllRead, AllCame};

use input_arrival::Arrival;
use std::io::Read;

// One read into the area, after the bytes that stand there.
fn read_more<R: Read>(reader: &mut R, area: &mut [u8], at: usize) -> Arrival
    requires { at ≤ length area.old }
    ensures folds { ReadOnce (length area.old) at result }
    ensures bytes { ReadOn at (R.remaining reader.old) (R.remaining reader.new) area.old area.new result }
{
    let room = area.len();
    let got = reader.read(&mut area[at..]).ok();
    input_arrival::taken(at, room, got)
}

// Reads until the input ends, a read fails or the area is full, and tells which: only at the end of the input is it whole.
pub fn read_all<R: Read>(reader: &mut R, area: &mut [u8]) -> Arrival
    ensures ends { AllRead area.new result }
    ensures bytes { AllCame (R.remaining reader.old) area.new result }
{
    let mut at = 0;
    while at < area.len() {
        let next = read_more(reader, area, at);
        let Arrival::Going(n) = next else {
            return next;
        };
        at = n;
    }
    Arrival::Cut
}
