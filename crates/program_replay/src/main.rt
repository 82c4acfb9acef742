// Answers searches read from standard input: makes each search's calls in portions and prints each answer.
#![tactic(auto)]

use call_lengths::{Store, Work};
use input_arrival::Arrival;
use program_calls::{
    Centres, Counts, LAYOUTS_LENGTH, LISTS_LENGTH, Layouts, Lists, MOST_CENTRES, MOST_COUNTS,
    Marks, POINTS_LENGTH, Points, VISITED_LENGTH, Visited,
};
use program_words::words::Line;
use std::io;
use std::io::{Read, Write};

// The most bytes that are read.
const MOST_BYTES: usize = 1048576;

// Answers what arrived whole and stands in the area.
fn answer_arrived<W: Write>(
    out: &mut W,
    input: Arrival,
    area: &[u8],
    block: &mut [u8],
    allow: &mut [u8],
    work: &mut Work<'_>,
    store: &mut Store<'_>,
) -> io::Result<()> {
    let text = match input {
        Arrival::Whole(n) if n <= area.len() => &area[..n],
        _ => return writeln!(out, "(refused 18)"),
    };
    let steps = route_table::original_steps();
    let mut line = Line::new();
    if program_lines::answer_all(out, text, &steps, &mut line, block, allow, work, store)? {
        return Ok(());
    }
    writeln!(out, "error")
}

// Reads standard input and answers it.
fn answer_input<R: Read, W: Write>(
    reader: &mut R,
    out: &mut W,
    text: &mut [u8; MOST_BYTES],
    block: &mut [u8],
    allow: &mut [u8],
    work: &mut Work<'_>,
    lists: &mut Lists,
    visited: &mut Visited,
    layouts: &mut Layouts,
    points: &mut Points,
) -> io::Result<()> {
    let input = input_read::read_all(reader, text);
    let mut store = Store {
        lists,
        visited,
        layouts,
        points,
    };
    answer_arrived(out, input, text, block, allow, work, &mut store)
}

fn main(rt: HostRuntime) -> io::Result<()> {
    let mut text = [0u8; MOST_BYTES];
    let mut block: Marks = [0; MOST_CENTRES];
    let mut allow: Marks = [0; MOST_CENTRES];
    let mut counts: Counts = [0; MOST_COUNTS];
    let mut map: Marks = [0; MOST_CENTRES];
    let mut queue: Centres = [0; MOST_CENTRES];
    let mut predecessors: Centres = [0; MOST_CENTRES];
    let mut route: Centres = [0; MOST_CENTRES];
    let mut lists: Lists = [0; LISTS_LENGTH];
    let mut visited: Visited = [0; VISITED_LENGTH];
    let mut layouts: Layouts = [0; LAYOUTS_LENGTH];
    let mut points: Points = [0; POINTS_LENGTH];
    let mut work = Work {
        counts: &mut counts,
        map: &mut map,
        queue: &mut queue,
        predecessors: &mut predecessors,
        route: &mut route,
    };
    answer_input(
        &mut rt.stdin(),
        &mut io::writer(&rt),
        &mut text,
        &mut block,
        &mut allow,
        &mut work,
        &mut lists,
        &mut visited,
        &mut layouts,
        &mut points,
    )
}
