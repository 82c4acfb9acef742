// Answers the worked sheets, which stand on standard input one after the other, each after a line with the number of its bytes.
#![tactic(auto)]

use input_arrival::Arrival;
use sheet_write::ENOUGH;
use std::io;
use std::io::Write;
use text_numbers::Taken;

// How many bytes all of the sheets have at most.
const MOST_BYTES: usize = 65536;

// Writes the answer to what has arrived of an input.
fn write_reply<W: Write>(writer: &mut W, input: Arrival, area: &[u8]) -> io::Result<()> {
    let mut out = [0u8; ENOUGH];
    let n = sheet_reply::reply(input, area, &mut out);
    writer.write_all(&out[..n])
}

// The input ends inside a sheet, or no number of bytes stands where one must: what is left is no whole text.
fn refuse_rest<W: Write>(writer: &mut W, all: &[u8]) -> io::Result<usize> {
    write_reply(writer, Arrival::Cut, all)?;
    Ok(all.len())
}

// Answers the sheet at a place, and gives the place after it.
fn reply_at<W: Write>(writer: &mut W, all: &[u8], at: usize) -> io::Result<usize> {
    let Ok(Taken { value, next: end }) = text_numbers::number(all, at, 65536) else {
        return refuse_rest(writer, all);
    };
    let n = value as usize;
    if all.len() - end <= n {
        return refuse_rest(writer, all);
    }
    if all[end] != b'\n' {
        return refuse_rest(writer, all);
    }
    let from = end + 1;
    let to = from + n;
    write_reply(writer, Arrival::Whole(n), &all[from..to])?;
    Ok(to)
}

// Answers one sheet after the other.
fn reply_all<W: Write>(writer: &mut W, all: &[u8]) -> io::Result<()> {
    let mut at = 0;
    while at < all.len() {
        let next = reply_at(writer, all, at)?;
        if next <= at {
            return Ok(());
        }
        at = next;
    }
    Ok(())
}

fn main(rt: HostRuntime) -> io::Result<()> {
    let mut writer = io::writer(&rt);
    let mut space = [0u8; MOST_BYTES];
    let input = input_read::read_all(&mut rt.stdin(), &mut space);
    let Arrival::Whole(n) = input else {
        return write_reply(&mut writer, input, &space);
    };
    reply_all(&mut writer, &space[..n])
}
