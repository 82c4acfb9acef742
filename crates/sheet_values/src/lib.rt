// The values of a sheet that was read, in the forms that the calls take, and the drive over them. Apart from the drive's own calls.
#![tactic(auto)]

ghost use Rattle.std.specs.Prelude.{◌≡◌, ◌+◌, ◌*◌, ◌≤◌, length, drop};
ghost use Rattle.base_laws.specs.Fill.{filled};
ghost use Rattle.rule_routes.specs.Edges.{original_steps};
ghost use Rattle.sheet_texts.specs.Parts.{enough, Front};
ghost use Rattle.sheet_form.specs.Sheets.{Sheet, sheet};
ghost use Rattle.sheet_read.specs.Answers.{SheetHeld};
ghost use Rattle.sheet_rule.specs.Drive.{bounds_of, drive_text};
ghost use Rattle.sheet_values.specs.Inner.{position_in, allow_read, query_in, limits_read, number_at, edge_at, side_at};
ghost use Rattle.sheet_values.specs.Inner.{Rooms, Fronts, FlatIn};

use base_model::{Bounds, EDGES, Limits, NUMBERS, Position, Query, SIDES};
use set_places::FlatPlaces;
use sheet_allowed::FlatSheet;
use sheet_form::{
    ALLOW, BLOCK, END, LIMITS, MOST_OBSTACLES, MOST_PLACES, RESULTS, START, WINDOW, WORDS,
};
use sheet_read::Counts;

// The position whose x and y stand in a row of words.
fn position_in(words: &[u32], at: usize) -> Position
    requires { at + 2 ≤ length words.now }
    ensures { result ≡ position_in at words.now }
{
    Position {
        x: words[at],
        y: words[at + 1],
    }
}

// The bounds that stand in a row of words.
fn bounds_in(words: &[u32], at: usize) -> Bounds
    requires { at + 4 ≤ length words.now }
    ensures { result ≡ bounds_of (drop at words.now) }
{
    Bounds {
        left: words[at],
        top: words[at + 1],
        right: words[at + 2],
        bottom: words[at + 3],
    }
}

// The allowed mover, where there is a line for it.
fn allow_in(fixed: &[u32], allow: bool) -> Option<Bounds>
    requires { length fixed.now ≡ 20 }
    ensures { result ≡ allow_read allow fixed.now }
{
    allow.then(|| bounds_in(fixed, ALLOW))
}

// The query of a sheet, from the words of the lines that stand once.
fn query_in(fixed: &[u32], allow: bool) -> Query
    requires { length fixed.now ≡ 20 }
    ensures { result ≡ query_in allow fixed.now }
{
    Query {
        window: sheet_words::rect_in(fixed, WINDOW),
        start: position_in(fixed, START),
        end: position_in(fixed, END),
        block: bounds_in(fixed, BLOCK),
        allow: allow_in(fixed, allow),
    }
}

// The limits of a sheet.
fn limits_in(fixed: &[u32]) -> Limits
    requires { length fixed.now ≡ 20 }
    ensures { result ≡ limits_read fixed.now }
{
    Limits {
        states: fixed[LIMITS],
        results: fixed[RESULTS],
    }
}

// The four numbers of each of n places, whose rows have twelve words.
fn numbers_of(words: &[u32], n: usize, out: &mut [u32])
    requires { (12 * n ≤ length words.now) × (4 * n ≤ length out.old) }
    ensures { out.new ≡ filled (number_at words.now) (4 * n) out.old }
{
    for k in 0..NUMBERS * n {
        out[k] = words[WORDS * (k / NUMBERS) + k % NUMBERS];
    }
}

// The eight edges of each of n places.
fn edges_of(words: &[u32], n: usize, out: &mut [i32])
    requires { (12 * n ≤ length words.now) × (8 * n ≤ length out.old) }
    ensures { out.new ≡ filled (edge_at words.now) (8 * n) out.old }
{
    for k in 0..EDGES * n {
        out[k] = sheet_words::edge(words[WORDS * (k / EDGES) + (NUMBERS + k % EDGES)]);
    }
}

// The first n words as edges.
fn sides_of(words: &[u32], n: usize, out: &mut [i32])
    requires { (n ≤ length words.now) × (n ≤ length out.old) }
    ensures { out.new ≡ filled (side_at words.now) n out.old }
{
    for k in 0..n {
        out[k] = sheet_words::edge(words[k]);
    }
}

// Drives from the front of each area, as far as the counts say. The areas are lent at one lifetime, as one sheet holds them.
fn drive_front<'a>(
    k: Counts,
    fixed: &[u32],
    cells: &'a [u8],
    sides: &'a [i32],
    groups: &'a [u32],
    numbers: &'a [u32],
    edges: &'a [i32],
    out: &mut [u8],
) -> usize
    requires fronts { Fronts k fixed.now cells.now sides.now groups.now numbers.now edges.now }
    requires enough_in_bounds { enough ≤ length out.old }
    ensures { (s : Sheet)
        → FlatIn s k fixed.now cells.now sides.now
        groups.now numbers.now edges.now
        → Front (drive_text original_steps s) out.old out.new result }
{
    let sheet = FlatSheet {
        across: fixed[0],
        down: fixed[1],
        cells: &cells[..k.cells],
        obstacles: &sides[..SIDES * k.obstacles],
        query: query_in(fixed, k.allow),
        limits: limits_in(fixed),
        places: FlatPlaces {
            groups: &groups[..k.groups],
            numbers: &numbers[..NUMBERS * k.places],
            edges: &edges[..EDGES * k.places],
        },
    };
    sheet_drive::drive(&sheet, &route_table::original_steps(), out)
}

// Writes the answer to the sheet whose numbers stand in the areas.
pub fn driven(
    k: Counts,
    fixed: &[u32],
    cells: &[u8],
    obstacles: &[u32],
    groups: &[u32],
    places: &[u32],
    out: &mut [u8],
) -> usize
    requires rooms { Rooms k fixed.now cells.now obstacles.now groups.now places.now }
    requires enough_in_bounds { enough ≤ length out.old }
    ensures { (s : Sheet)
        → sheet.fits s
        → SheetHeld s k fixed.now cells.now obstacles.now
        groups.now places.now
        → Front (drive_text original_steps s) out.old out.new result }
{
    let mut sides = [0i32; SIDES * MOST_OBSTACLES];
    let mut numbers = [0u32; NUMBERS * MOST_PLACES];
    let mut edges = [0i32; EDGES * MOST_PLACES];
    sides_of(obstacles, SIDES * k.obstacles, &mut sides);
    numbers_of(places, k.places, &mut numbers);
    edges_of(places, k.places, &mut edges);
    drive_front(k, fixed, cells, &sides, groups, &numbers, &edges, out)
}
