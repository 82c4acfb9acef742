// The values that the calls take and give, their bounds, and what they share of code.
#![tactic(auto)]

ghost use Rattle.std.specs.Prelude.{◌≡◌, false};
ghost use Rattle.base_model.specs.Answers.{said_of, verdict_number};
ghost use Rattle.base_model.specs.Records.{fresh_record};

use std::error::Error;
use std::fmt;

// Half open: right and bottom are exclusive.
#[derive(Clone, Copy)]
pub struct Rect {
    pub left: i32,
    pub top: i32,
    pub right: i32,
    pub bottom: i32,
}

// How far a mover reaches from its centre.
#[derive(Clone, Copy)]
pub struct Bounds {
    pub left: u32,
    pub top: u32,
    pub right: u32,
    pub bottom: u32,
}

// A pixel of the map.
#[derive(Clone, Copy, PartialEq, Eq)]
pub struct Position {
    pub x: u32,
    pub y: u32,
}

// A tile of the map.
#[derive(Clone, Copy)]
pub struct Tile {
    pub x: u32,
    pub y: u32,
}

// A building that may be placed. Spec index and tile are carried along.
#[derive(Clone, Copy)]
pub struct Placement {
    pub spec: u32,
    pub group: u32,
    pub tile: Tile,
    pub footprint: Rect,
    pub collision: Rect,
}

// A rectangle lent flat: how many edges it has.
pub const SIDES: usize = 4;

// Placements lent flat: how many numbers each has (spec index, group, tile x, tile y), how many rectangles (footprint, collision), and how
// many edges those have.
pub const NUMBERS: usize = 4;

pub const RECTS: usize = 2;

pub const EDGES: usize = SIDES * RECTS;

// The pixels of a cell's side, the cells of a map's side at most, and the pixels of that.
pub const CELL: u32 = 8;

pub const CELLS: u32 = 1024;

pub const PIXELS: u32 = CELL * CELLS;

// How many centres a window has at most.
pub const CENTRES: usize = 1048576;

// How far a mover reaches at most.
pub const REACH: u32 = 256;

// How far from the entrance a placement may stand at most, in pixels.
pub const RADIUS: u32 = 1024;

// How many obstacles and how many placements there are at most, and the last spec index.
pub const OBSTACLES: usize = 4096;

pub const PLACES: usize = 6144;

pub const LAST_SPEC: u32 = 5;

// How many slots there are at most: so many groups, members of a set and lists of a search, too.
pub const SLOTS: usize = 6;

// A set in an area: the number of its members, then the members, then zeros.
pub const ROW: usize = SLOTS + 1;

// How many sets a search evaluates at most, how many layouts it lists, and how many points their routes have together.
pub const STATES: u32 = 100000;

pub const LAYOUTS: usize = 32;

pub const POINTS: usize = 1000000;

// The reasons of a search record.
pub const RUNNING: u32 = 1;

pub const EXHAUSTED: u32 = 2;

pub const STATE_LIMIT: u32 = 3;

pub const RESULT_LIMIT: u32 = 4;

// What a search or a judgement is about: the window, the ends, the mover that a wall blocks and the one that it lets pass.
#[derive(Clone, Copy)]
pub struct Query {
    pub window: Rect,
    pub start: Position,
    pub end: Position,
    pub block: Bounds,
    // none where a wall need let nobody pass
    pub allow: Option<Bounds>,
}

// How many sets a search may evaluate, and how many layouts it may list.
#[derive(Clone, Copy)]
pub struct Limits {
    pub states: u32,
    pub results: u32,
}

// The search record. Its reason is a number, one of the four above; any other names none.
#[derive(Clone, Copy)]
pub struct Record {
    pub reason: u32,
    pub evaluations: u32,
    pub placements: u32,
    pub layouts: u32,
    pub lists: u32,
    pub pending: bool,
    // the number of points of each layout's kept route
    pub routes: [u32; LAYOUTS],
    // the length of each list, and how many of its entries have been taken
    pub lengths: [u32; SLOTS],
    pub nexts: [u32; SLOTS],
}

// What a call turns away.
#[derive(Clone, Copy, Debug, PartialEq, Eq)]
pub enum Refusal {
    MapInvalid,
    WindowInvalid,
    EndOutside,
    BoundTooLarge,
    ObstacleInvalid,
    AreaTooShort,
    StartBlocked,
    EndBlocked,
    NoRoute,
    GroupsInvalid,
    StateLimitInvalid,
    ResultLimitInvalid,
    TooManyPlacements,
    // with the index of the first such placement
    PlacementInvalid(u32),
    RectangleEmpty,
    FootprintInvalid,
    RecordInvalid,
    SelectionInvalid,
    StepsInvalid,
    CountOutOfRange,
    SiteInvalid,
}

// What a selection of placements comes to.
#[derive(Clone, Copy, Debug, PartialEq, Eq)]
pub enum Verdict {
    Slots,
    Overlap,
    EndCovered,
    Open,
    Spare,
    Shut,
    Wall,
}

// What judging answers: the verdict, and the ground that the selection leaves.
#[derive(Clone, Copy)]
pub struct Judged {
    pub verdict: Verdict,
    pub ground: u32,
}

// Where placements are wanted: around the entrance, the line from the first point to the second, no farther from it than the radius in
// pixels.
#[derive(Clone, Copy)]
pub struct Site {
    pub first: Position,
    pub second: Position,
    pub radius: u32,
}

// A placement's squared distance from the entrance in pixels: quotient + remainder / divisor.
#[derive(Clone, Copy)]
pub struct Rank {
    pub quotient: u64,
    pub remainder: u64,
    pub divisor: u64,
}

// The number of a refusal. 13 is out of use.
impl From<Refusal> for u32 {
    ghost from_gives = { λ refusal n. n ≡ (said_of refusal).number };

    #[tactic(auto, unfolding(crate::specs::Answers::said_of, crate::specs::Answers::refusal))]
    fn from(refusal: Refusal) -> u32 {
        match refusal {
            Refusal::MapInvalid => 1,
            Refusal::WindowInvalid => 2,
            Refusal::EndOutside => 3,
            Refusal::BoundTooLarge => 4,
            Refusal::ObstacleInvalid => 5,
            Refusal::AreaTooShort => 6,
            Refusal::StartBlocked => 7,
            Refusal::EndBlocked => 8,
            Refusal::NoRoute => 9,
            Refusal::GroupsInvalid => 10,
            Refusal::StateLimitInvalid => 11,
            Refusal::ResultLimitInvalid => 12,
            Refusal::TooManyPlacements => 14,
            Refusal::PlacementInvalid(_) => 15,
            Refusal::RectangleEmpty => 15,
            Refusal::FootprintInvalid => 15,
            Refusal::RecordInvalid => 16,
            Refusal::SelectionInvalid => 17,
            Refusal::StepsInvalid => 19,
            Refusal::CountOutOfRange => 20,
            Refusal::SiteInvalid => 22,
        }
    }
}

// As the programs print it: the number, and the index that goes with 15.
impl fmt::Display for Refusal {
    fn fmt<W: fmt::Write>(&self, f: &mut fmt::Formatter<W>) -> fmt::Result {
        let number = u32::from(*self);
        match self {
            Refusal::PlacementInvalid(i) => write!(f, "{number} {i}"),
            _ => write!(f, "{number}"),
        }
    }
}

impl Error for Refusal {}

// The number of a verdict.
impl From<Verdict> for u32 {
    ghost from_gives = { λ verdict n. n ≡ verdict_number verdict };

    #[tactic(auto, unfolding(crate::specs::Answers::verdict_number))]
    fn from(verdict: Verdict) -> u32 {
        match verdict {
            Verdict::Slots => 1,
            Verdict::Overlap => 2,
            Verdict::EndCovered => 3,
            Verdict::Open => 4,
            Verdict::Spare => 5,
            Verdict::Shut => 6,
            Verdict::Wall => 7,
        }
    }
}

// A record with nothing found and no list.
pub fn fresh_record(reason: u32, places: u32, pending: bool) -> Record
    ensures { result ≡ fresh_record reason places pending }
{
    Record {
        reason,
        evaluations: 0,
        placements: places,
        layouts: 0,
        lists: 0,
        pending,
        routes: [0; LAYOUTS],
        lengths: [0; SLOTS],
        nexts: [0; SLOTS],
    }
}

// The record of no search.
pub fn no_record() -> Record
    ensures { result ≡ fresh_record 0 0 false }
{
    fresh_record(0, 0, false)
}
