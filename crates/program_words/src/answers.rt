// An answer of a call, printed.
use crate::say::digest;
use crate::stored::Search;
use base_model::{LAYOUTS, NUMBERS, ROW, Record, Refusal, SLOTS};
use call_lengths::Kept;
use std::io;
use std::io::Write;

// Prints 0 after a space, or the refusal.
pub fn say_answer<T, W: Write>(out: &mut W, answer: &Result<T, Refusal>) -> io::Result<()> {
    match answer {
        Ok(_) => write!(out, " 0"),
        Err(r) => write!(out, " {r}"),
    }
}

// Prints a record and the digest of its rows and of the areas up to their lengths.
pub fn show<W: Write>(
    out: &mut W,
    rec: &Record,
    search: &Search<'_>,
    kept: &Kept<'_, '_>,
) -> io::Result<()> {
    let limits = search.limits;
    let places = search.places.numbers.len() / NUMBERS;
    let h = digest(0, kept.lists, SLOTS * places);
    let h = digest(h, kept.visited, ROW * limits.states as usize);
    let h = digest(h, kept.layouts, ROW * limits.results as usize);
    let h = digest(h, kept.points, search.points);
    let h = digest(h, &rec.lengths, SLOTS);
    let h = digest(h, &rec.nexts, SLOTS);
    let h = digest(h, &rec.routes, LAYOUTS);
    write!(
        out,
        " {} {} {}",
        rec.reason, rec.evaluations, rec.placements
    )?;
    writeln!(
        out,
        " {} {} {} {h}",
        rec.layouts,
        rec.lists,
        u32::from(rec.pending)
    )
}

// Whether prepare wrote the baseline: it did not where it refused with 1 to 6.
pub fn writes(answer: &Result<(), Refusal>) -> bool {
    !matches!(
        answer,
        Err(
            Refusal::MapInvalid
                | Refusal::WindowInvalid
                | Refusal::EndOutside
                | Refusal::BoundTooLarge
                | Refusal::ObstacleInvalid
                | Refusal::AreaTooShort
        )
    )
}

// The members of row k: its length, at most 6, and so many entries; none where there is no such row.
pub fn members(rows: &[u16], k: usize) -> &[u16] {
    if rows.len() / ROW <= k {
        return &[];
    }
    let from = ROW * k + 1;
    let slots = &rows[from..from + SLOTS];
    slots.get(..rows[from - 1] as usize).unwrap_or(&[])
}
