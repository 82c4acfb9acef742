// Drags rocks over a small map, as an editor does: covers a mover's baseline with a rock, lifts it off and covers it elsewhere. After each
// call it prints the answer, the counts row by row, and the verdict on the ground with no building on it.
#![tactic(auto)]

use base_model::{Bounds, Position, Query, Rect, Refusal};
use call_lengths::Work;
use program_words::answers;
use set_places::{FlatPlaces, Given};
use std::io;
use std::io::Write;
use walls::Preparing;

// The map is one walkable cell.
const ACROSS: u32 = 1;

const DOWN: u32 = 1;

const WALKABLE: u8 = 1;

// The window has 5 by 3 centres.
const WIDTH: usize = 5;

const HEIGHT: usize = 3;

const CENTRES: usize = WIDTH * HEIGHT;

const CORNERS: usize = (WIDTH + 1) * (HEIGHT + 1);

const WINDOW: Rect = Rect {
    left: 0,
    top: 0,
    right: WIDTH as i32,
    bottom: HEIGHT as i32,
};

const START: Position = Position { x: 0, y: 1 };

const END: Position = Position { x: 4, y: 1 };

// The mover reaches one pixel upwards: the map's edge keeps it off the first row, and a rock keeps it off the pixel below the rock, too.
const MOVER: Bounds = Bounds {
    left: 0,
    top: 1,
    right: 0,
    bottom: 0,
};

// Places for a rock: the upper and the lower end of the middle column, and the place beside the upper end.
const UPPER: Rect = Rect {
    left: 2,
    top: 0,
    right: 3,
    bottom: 1,
};

const LOWER: Rect = Rect {
    left: 2,
    top: 2,
    right: 3,
    bottom: 3,
};

const BESIDE: Rect = Rect {
    left: 3,
    top: 0,
    right: 4,
    bottom: 1,
};

type Baseline = [u8; CENTRES];

// Prints one row of counts.
fn show_row<W: Write>(out: &mut W, row: &[u8]) -> io::Result<()> {
    for count in row {
        write!(out, " {count}")?;
    }
    writeln!(out)
}

// Prints the counts row by row.
fn show_counts<W: Write>(out: &mut W, baseline: &Baseline) -> io::Result<()> {
    for row in baseline.chunks_exact(WIDTH) {
        show_row(out, row)?;
    }
    Ok(())
}

// Judges the ground with no building on it; prints the verdict, 4 where the mover passes and 7 where it is shut out, and the ground left.
// There are no groups, no placements, no allowed mover and no members of a selection: these are empty.
fn judge_ground<W: Write>(out: &mut W, steps: &[i32], baseline: &Baseline) -> io::Result<()> {
    let query = Query {
        window: WINDOW,
        start: START,
        end: END,
        block: MOVER,
        allow: None,
    };
    let mut counts = [0i32; CORNERS];
    let mut map = [0u8; CENTRES];
    let mut queue = [0u32; CENTRES];
    let mut predecessors = [0u32; CENTRES];
    let mut route = [0u32; CENTRES];
    let places = FlatPlaces {
        groups: &[],
        numbers: &[],
        edges: &[],
    };
    let given = Given {
        query,
        places,
        block_base: baseline,
        allow_base: &[],
    };
    let mut work = Work {
        counts: &mut counts,
        map: &mut map,
        queue: &mut queue,
        predecessors: &mut predecessors,
        route: &mut route,
    };
    match call_judge::judge(&given, steps, &[], &mut work) {
        Ok(judged) => {
            let verdict = u32::from(judged.verdict);
            writeln!(out, "verdict {verdict} ground {}", judged.ground)
        }
        Err(r) => writeln!(out, "refused {r}"),
    }
}

// Prints what was done and its answer, then the counts and the verdict.
fn say_done<W: Write>(
    out: &mut W,
    what: &str,
    answer: Result<(), Refusal>,
    steps: &[i32],
    baseline: &Baseline,
) -> io::Result<()> {
    write!(out, "{what}")?;
    answers::say_answer(out, &answer)?;
    writeln!(out)?;
    show_counts(out, baseline)?;
    judge_ground(out, steps, baseline)
}

// Prepares the mover; there is no obstacle.
fn prepare_mover<W: Write>(out: &mut W, steps: &[i32], baseline: &mut Baseline) -> io::Result<()> {
    let asked = Preparing {
        across: ACROSS,
        down: DOWN,
        cells: &[WALKABLE],
        obstacles: &[],
        window: WINDOW,
        start: START,
        end: END,
        mover: MOVER,
    };
    let mut counts = [0i32; CORNERS];
    let mut map = [0u8; CENTRES];
    let mut queue = [0u32; CENTRES];
    let mut predecessors = [0u32; CENTRES];
    let mut route = [0u32; CENTRES];
    let mut work = Work {
        counts: &mut counts,
        map: &mut map,
        queue: &mut queue,
        predecessors: &mut predecessors,
        route: &mut route,
    };
    let answer = walls::prepare(&asked, steps, baseline, &mut work);
    say_done(out, "prepare", answer, steps, baseline)
}

// Puts a rock down.
fn cover_rock<W: Write>(
    out: &mut W,
    what: &str,
    rock: Rect,
    steps: &[i32],
    baseline: &mut Baseline,
) -> io::Result<()> {
    let answer = walls::cover(WINDOW, MOVER, rock, baseline);
    say_done(out, what, answer, steps, baseline)
}

// Takes a rock up.
fn lift_rock<W: Write>(
    out: &mut W,
    what: &str,
    rock: Rect,
    steps: &[i32],
    baseline: &mut Baseline,
) -> io::Result<()> {
    let answer = walls::lift(WINDOW, MOVER, rock, baseline);
    say_done(out, what, answer, steps, baseline)
}

// Two rocks are put down on one place: the second raises the counts there and changes no verdict. It is dragged to the lower end, and the
// two shut the mover out. A lift where no rock stands is refused with 20: one of its counts is above zero, yet nothing is written. With
// both rocks taken up the counts are the prepared ones.
fn main(rt: HostRuntime) -> io::Result<()> {
    let table = walls::original_steps();
    let steps = &table[..];
    let mut out = io::writer(&rt);
    let mut baseline = [0u8; CENTRES];
    prepare_mover(&mut out, steps, &mut baseline)?;
    cover_rock(&mut out, "cover upper", UPPER, steps, &mut baseline)?;
    cover_rock(&mut out, "cover upper again", UPPER, steps, &mut baseline)?;
    lift_rock(&mut out, "lift upper", UPPER, steps, &mut baseline)?;
    cover_rock(&mut out, "cover lower", LOWER, steps, &mut baseline)?;
    lift_rock(&mut out, "lift beside", BESIDE, steps, &mut baseline)?;
    lift_rock(&mut out, "lift lower", LOWER, steps, &mut baseline)?;
    lift_rock(&mut out, "lift upper", UPPER, steps, &mut baseline)
}
