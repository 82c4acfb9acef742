// The calls of a stored search, by value, each answer printed on a line; the areas at the sizes of the largest search.
#![tactic(auto)]

use base_model::{Bounds, LAYOUTS, ROW, Record, Refusal, SLOTS};
use call_lengths::{Kept, Store, Work};
use call_prepare::Preparing;
use program_words::stored::Search;
use program_words::{answers, say};
use set_places::Given;
use std::io;
use std::io::Write;

// The sizes that every stored search fits: a window of 300 by 260 centres, 64 placements, 500 states, and four routes with a point for
// each centre.
pub const MOST_CENTRES: usize = 300 * 260;

pub const MOST_COUNTS: usize = 301 * 261;

const MOST_PLACES: usize = 64;

const MOST_STATES: usize = 500;

pub const LISTS_LENGTH: usize = SLOTS * MOST_PLACES;

pub const VISITED_LENGTH: usize = ROW * MOST_STATES;

pub const LAYOUTS_LENGTH: usize = ROW * LAYOUTS;

pub const POINTS_LENGTH: usize = 2 * 4 * MOST_CENTRES;

pub type Marks = [u8; MOST_CENTRES];

pub type Centres = [u32; MOST_CENTRES];

pub type Counts = [i32; MOST_COUNTS];

pub type Lists = [u16; LISTS_LENGTH];

pub type Visited = [u16; VISITED_LENGTH];

pub type Layouts = [u16; LAYOUTS_LENGTH];

pub type Points = [u32; POINTS_LENGTH];

// Prepares a mover; prints the answer and the baseline's digest. Answers whether the mover was prepared.
pub fn prepare_mover<W: Write>(
    out: &mut W,
    name: &[u8],
    search: &Search<'_>,
    mover: Bounds,
    steps: &[i32],
    baseline: &mut [u8],
    work: &mut Work<'_>,
) -> io::Result<bool> {
    let query = search.query;
    let asked = Preparing {
        across: search.across,
        down: search.down,
        cells: search.cells,
        obstacles: search.obstacles,
        window: query.window,
        start: query.start,
        end: query.end,
        mover,
    };
    let answer = call_prepare::prepare(&asked, steps, baseline, work);
    out.write_all(name)?;
    answers::say_answer(out, &answer)?;
    if answers::writes(&answer) {
        write!(out, " {}", say::digest(0, baseline, search.centres))?;
    }
    writeln!(out)?;
    Ok(answer.is_ok())
}

// Steps by n; prints the answer and the record, which stays as it was where the step is refused.
fn step_by<W: Write>(
    out: &mut W,
    n: u32,
    search: &Search<'_>,
    given: &Given<'_>,
    steps: &[i32],
    rec: Record,
    work: &mut Work<'_>,
    store: &mut Store<'_>,
) -> io::Result<Record> {
    let answer = call_step::step(given, search.limits, steps, rec, n, work, store);
    write!(out, "step {n}")?;
    answers::say_answer(out, &answer)?;
    let after = answer.unwrap_or(rec);
    answers::show(out, &after, search, &store.kept())?;
    Ok(after)
}

// Steps by each portion.
pub fn step_all<W: Write>(
    out: &mut W,
    search: &Search<'_>,
    given: &Given<'_>,
    steps: &[i32],
    first: Record,
    work: &mut Work<'_>,
    store: &mut Store<'_>,
) -> io::Result<Record> {
    let mut rec = first;
    for &n in search.portions {
        rec = step_by(out, n, search, given, steps, rec, work, store)?;
    }
    Ok(rec)
}

// Reads a layout; prints the answer, its members, and its route's length and digest.
fn read_one<W: Write>(
    out: &mut W,
    k: u32,
    search: &Search<'_>,
    given: &Given<'_>,
    rec: Record,
    kept: &Kept<'_, '_>,
) -> io::Result<()> {
    write!(out, "layout {k}")?;
    let mut route: &[u32] = &[];
    match call_read::read(given, search.limits, rec, k, kept) {
        Ok(points) => {
            write!(out, " 0 0")?;
            for member in answers::members(kept.layouts, k as usize) {
                write!(out, " {member}")?;
            }
            route = points;
        }
        Err(Refusal::PlacementInvalid(i)) => write!(out, " 15 {i}")?,
        Err(r) => write!(out, " {r} 0")?,
    }
    writeln!(
        out,
        " route {} {}",
        route.len(),
        say::digest(0, route, route.len())
    )
}

// Reads every layout, and one that is not listed.
pub fn read_all<W: Write>(
    out: &mut W,
    search: &Search<'_>,
    given: &Given<'_>,
    rec: Record,
    kept: &Kept<'_, '_>,
) -> io::Result<()> {
    for k in 0..LAYOUTS as u32 + 1 {
        read_one(out, k, search, given, rec, kept)?;
        if rec.layouts <= k {
            return Ok(());
        }
    }
    Ok(())
}

// Judges the first n selections of a row of selections, each as in the layouts area; prints each answer, the verdict and the ground left.
pub fn judge_all<W: Write>(
    out: &mut W,
    rows: &[u16],
    n: usize,
    given: &Given<'_>,
    steps: &[i32],
    work: &mut Work<'_>,
) -> io::Result<()> {
    for k in 0..n {
        let judged = call_judge::judge(given, steps, answers::members(rows, k), work);
        write!(out, "judge")?;
        answers::say_answer(out, &judged)?;
        if let Ok(judged) = judged {
            write!(out, " {} {}", u32::from(judged.verdict), judged.ground)?;
        }
        writeln!(out)?;
    }
    Ok(())
}
