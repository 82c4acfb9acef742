// A stored search: what it is given beside the areas, as the numbers of a line say it.
ghost use Rattle.std.specs.Prelude.{◌≤◌};

use crate::words::{Line, at, count_at};
use base_model::{Bounds, EDGES, Limits, NUMBERS, Position, Query, ROW, Rect, SIDES};
use set_places::{FlatPlaces, Given};

// Where the numbers of a line stand: one number each, but for the window's four, each end's two, the blocked mover's four, and the
// allowed mover's five, the first of which is 0 where there is none.
const NUMBER_AT: usize = 0;

const ACROSS_AT: usize = 1;

const DOWN_AT: usize = 2;

const CELLS_AT: usize = 3;

const OBSTACLES_AT: usize = 4;

const WINDOW_AT: usize = 5;

const START_AT: usize = 9;

const END_AT: usize = 11;

const BLOCK_AT: usize = 13;

const ALLOW_AT: usize = 17;

const STATES_AT: usize = 22;

const RESULTS_AT: usize = 23;

const GROUPS_AT: usize = 24;

const PLACES_AT: usize = 25;

const PORTIONS_AT: usize = 26;

const SELECTIONS_AT: usize = 27;

const CENTRES_AT: usize = 28;

const POINTS_AT: usize = 29;

const GIVEN_AT: usize = 30;

// Where the runs begin.
pub const RUNS: usize = 31;

// The movers' baselines.
#[derive(Clone, Copy)]
pub struct Bases<'a> {
    pub block: &'a [u8],
    pub allow: &'a [u8],
}

// A stored search: its number, the map's size, cells and obstacles, the query, its limits, the placements, the portions it is stepped by,
// the selections that are judged, and the sizes that digests go by.
#[derive(Clone, Copy)]
pub struct Search<'a> {
    pub number: u32,
    pub across: u32,
    pub down: u32,
    pub cells: &'a [u8],
    pub obstacles: &'a [i32],
    pub query: Query,
    pub limits: Limits,
    pub places: FlatPlaces<'a>,
    pub portions: &'a [u32],
    pub selections: &'a [u16],
    // where the baselines are handed in
    pub bases: Option<Bases<'a>>,
    pub centres: usize,
    pub points: usize,
}

// The point that stands at a place.
fn position_at(line: &Line, i: usize) -> Position
    requires { i ≤ 31 }
{
    Position {
        x: line.at(i),
        y: line.at(i + 1),
    }
}

// The four bounds that stand at a place.
fn bounds_at(line: &Line, i: usize) -> Bounds
    requires { i ≤ 31 }
{
    Bounds {
        left: line.at(i),
        top: line.at(i + 1),
        right: line.at(i + 2),
        bottom: line.at(i + 3),
    }
}

// The query of a line.
fn query_of(line: &Line) -> Query {
    Query {
        window: Rect {
            left: line.edge_at(WINDOW_AT),
            top: line.edge_at(WINDOW_AT + 1),
            right: line.edge_at(WINDOW_AT + 2),
            bottom: line.edge_at(WINDOW_AT + 3),
        },
        start: position_at(line, START_AT),
        end: position_at(line, END_AT),
        block: bounds_at(line, BLOCK_AT),
        allow: if line.at(ALLOW_AT) == 0 {
            None
        } else {
            Some(bounds_at(line, ALLOW_AT + 1))
        },
    }
}

// How many centres each baseline that is handed in has: none where none is.
fn given_of(unsigned: &[u32]) -> usize
    ensures { result ≤ 4096 }
{
    if at(unsigned, GIVEN_AT) == 0 {
        return 0;
    }
    count_at(unsigned, CENTRES_AT)
}

// The same for the allowed mover.
fn given_too(unsigned: &[u32]) -> usize
    ensures { result ≤ 4096 }
{
    if at(unsigned, ALLOW_AT) == 0 {
        return 0;
    }
    given_of(unsigned)
}

// The place after each run of a line.
#[derive(Clone, Copy)]
pub struct Ends {
    pub cells: usize,
    pub obstacles: usize,
    pub groups: usize,
    pub numbers: usize,
    pub edges: usize,
    pub portions: usize,
    pub selections: usize,
    pub block: usize,
    pub allow: usize,
}

// The runs stand one after the other, each as long as the line says.
pub fn ends_of(unsigned: &[u32]) -> Ends
    ensures { (31 ≤ result.cells)
        × (result.cells ≤ result.obstacles)
        × (result.obstacles ≤ result.groups)
        × (result.groups ≤ result.numbers)
        × (result.numbers ≤ result.edges)
        × (result.edges ≤ result.portions)
        × (result.portions ≤ result.selections)
        × (result.selections ≤ result.block)
        × (result.block ≤ result.allow)
        × (result.allow ≤ 200000) }
{
    let places = count_at(unsigned, PLACES_AT);
    let cells = RUNS + count_at(unsigned, CELLS_AT);
    let obstacles = cells + SIDES * count_at(unsigned, OBSTACLES_AT);
    let groups = obstacles + count_at(unsigned, GROUPS_AT);
    let numbers = groups + NUMBERS * places;
    let edges = numbers + EDGES * places;
    let portions = edges + count_at(unsigned, PORTIONS_AT);
    let selections = portions + ROW * count_at(unsigned, SELECTIONS_AT);
    let block = selections + given_of(unsigned);
    Ends {
        cells,
        obstacles,
        groups,
        numbers,
        edges,
        portions,
        selections,
        block,
        allow: block + given_too(unsigned),
    }
}

impl<'a> Search<'a> {
    // The search of a line, whose runs stand one after the other, each as long as the line says; none where they do not fill the line.
    pub fn of(line: &'a Line) -> Option<Search<'a>> {
        let Ends {
            cells,
            obstacles,
            groups,
            numbers,
            edges,
            portions,
            selections,
            block,
            allow,
        } = ends_of(line.unsigned());
        if line.count() != allow {
            return None;
        }
        let is_given = line.at(GIVEN_AT) != 0;
        let bases = Bases {
            block: line.bytes().get(selections..block)?,
            allow: line.bytes().get(block..allow)?,
        };
        Some(Search {
            number: line.at(NUMBER_AT),
            across: line.at(ACROSS_AT),
            down: line.at(DOWN_AT),
            cells: line.bytes().get(RUNS..cells)?,
            obstacles: line.signed().get(cells..obstacles)?,
            query: query_of(line),
            limits: Limits {
                states: line.at(STATES_AT),
                results: line.at(RESULTS_AT),
            },
            places: FlatPlaces {
                groups: line.unsigned().get(obstacles..groups)?,
                numbers: line.unsigned().get(groups..numbers)?,
                edges: line.signed().get(numbers..edges)?,
            },
            portions: line.unsigned().get(edges..portions)?,
            selections: line.shorts().get(portions..selections)?,
            bases: if is_given { Some(bases) } else { None },
            centres: line.at(CENTRES_AT) as usize,
            points: line.at(POINTS_AT) as usize,
        })
    }

    // What a search over these baselines is given.
    pub fn given(&self, bases: Bases<'a>) -> Given<'a> {
        Given {
            query: self.query,
            places: self.places,
            block_base: bases.block,
            allow_base: bases.allow,
        }
    }
}
