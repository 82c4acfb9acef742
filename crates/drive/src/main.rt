// Answers the drive sheet on standard input.
#![tactic(auto)]

use input_arrival::Arrival;
use sheet_form::MOST_BYTES;
use sheet_write::ENOUGH;
use std::io;
use std::io::Write;

// One byte more than a sheet may have: a text that fills the area is too long.
fn main(rt: HostRuntime) -> io::Result<()> {
    let mut text = [0u8; MOST_BYTES + 1];
    let mut out = [0u8; ENOUGH];
    let input: Arrival = input_read::read_all(&mut rt.stdin(), &mut text);
    let n = sheet_reply::reply(input, &text, &mut out);
    rt.stdout().write_all(&out[..n])
}
