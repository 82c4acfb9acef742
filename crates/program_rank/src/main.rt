// Ranks three posts by their distance from an entrance, as a planner does before a search: one beside an end of it, one between its ends
// and one beyond the radius. Prints each rank, then the posts from the nearest on.
#![tactic(auto)]

use base_model::{Position, Rank, Rect, Site};
use std::io::Write;
use std::{fmt, io};

// The map has 32 by 32 pixels.
const ACROSS: u32 = 4;

const DOWN: u32 = 4;

// The entrance leads eight pixels across and six down, so that it is ten long and the divisor between its ends is 400.
const SITE: Site = Site {
    first: Position { x: 12, y: 12 },
    second: Position { x: 20, y: 18 },
    radius: 6,
};

#[derive(Clone, Copy)]
enum Place {
    Beside,
    Between,
    Beyond,
}

impl Place {
    // The post that stands there.
    fn footprint(self) -> Rect {
        match self {
            Place::Beside => Rect {
                left: 8,
                top: 9,
                right: 13,
                bottom: 12,
            },
            Place::Between => Rect {
                left: 15,
                top: 12,
                right: 20,
                bottom: 15,
            },
            Place::Beyond => Rect {
                left: 26,
                top: 4,
                right: 31,
                bottom: 7,
            },
        }
    }
}

impl fmt::Display for Place {
    fn fmt<W: fmt::Write>(&self, f: &mut fmt::Formatter<W>) -> fmt::Result {
        match self {
            Place::Beside => f.write_str("beside"),
            Place::Between => f.write_str("between"),
            Place::Beyond => f.write_str("beyond"),
        }
    }
}

// A post and its rank; none where it is beyond the radius, or was refused.
#[derive(Clone, Copy)]
struct Post {
    place: Place,
    rank: Option<Rank>,
}

impl Post {
    // Whether this post is nearer than another. One without a rank is farther than each that has one.
    fn nearer(&self, other: &Post) -> bool {
        match (self.rank, other.rank) {
            (Some(rank), Some(far)) => walls::closer(rank, far),
            (Some(_), None) => true,
            _ => false,
        }
    }
}

// Ranks the post at a place; prints quotient, remainder and divisor, or that there is no rank.
fn rank_post<W: Write>(out: &mut W, place: Place) -> io::Result<Post> {
    write!(out, "{place}")?;
    let ranked = walls::rank(ACROSS, DOWN, SITE, place.footprint());
    match ranked {
        Ok(Some(rank)) => writeln!(
            out,
            " {} {} {}",
            rank.quotient, rank.remainder, rank.divisor
        )?,
        Ok(None) => writeln!(out, " no rank")?,
        Err(r) => writeln!(out, " refused {r}")?,
    }
    Ok(Post {
        place,
        rank: ranked.unwrap_or(None),
    })
}

// Sorts three posts from the nearest on; two that are equally near stay in their order.
fn nearest_first(posts: [Post; 3]) -> [Post; 3] {
    let [a, b, c] = posts;
    let [a, b] = nearer_first(a, b);
    let [b, c] = nearer_first(b, c);
    let [a, b] = nearer_first(a, b);
    [a, b, c]
}

fn nearer_first(a: Post, b: Post) -> [Post; 2] {
    if b.nearer(&a) { [b, a] } else { [a, b] }
}

// The two posts that have a rank are at the same whole distance, 4, and the remainder 164 is more than 2: the divisors tell that the one
// between the ends is nearer, by 164/400 to 2/4.
fn main(rt: HostRuntime) -> io::Result<()> {
    let out = &mut io::writer(&rt);
    let beyond = rank_post(out, Place::Beyond)?;
    let beside = rank_post(out, Place::Beside)?;
    let between = rank_post(out, Place::Between)?;
    write!(out, "nearest first:")?;
    for post in nearest_first([beyond, beside, between]) {
        write!(out, " {}", post.place)?;
    }
    writeln!(out)
}
