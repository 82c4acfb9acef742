// One stored search: its movers prepared, begun, stepped by each portion, its layouts read and judged.
#![tactic(auto)]

use base_model::ROW;
use call_lengths::{Store, Work};
use program_calls::prepare_mover;
use program_words::answers;
use program_words::stored::{Bases, Search};
use std::io;
use std::io::Write;

// Begins over the baselines, steps by each portion, then reads and judges.
fn search_on<W: Write>(
    out: &mut W,
    search: &Search<'_>,
    bases: Bases<'_>,
    steps: &[i32],
    work: &mut Work<'_>,
    store: &mut Store<'_>,
) -> io::Result<()> {
    let given = search.given(bases);
    let begun = call_begin::begin(&given, search.limits, steps, work, store);
    write!(out, "begin")?;
    answers::say_answer(out, &begun)?;
    let Ok(first) = begun else {
        return writeln!(out);
    };
    answers::show(out, &first, search, &store.kept())?;
    let last = program_calls::step_all(out, search, &given, steps, first, work, store)?;
    let kept = store.kept();
    program_calls::read_all(out, search, &given, last, &kept)?;
    program_calls::judge_all(
        out,
        kept.layouts,
        last.layouts as usize,
        &given,
        steps,
        work,
    )?;
    let selections = search.selections;
    program_calls::judge_all(out, selections, selections.len() / ROW, &given, steps, work)
}

// Prepares both movers, unless baselines are handed in, then searches.
pub fn search_for<W: Write>(
    out: &mut W,
    search: &Search<'_>,
    steps: &[i32],
    block: &mut [u8],
    allow: &mut [u8],
    work: &mut Work<'_>,
    store: &mut Store<'_>,
) -> io::Result<()> {
    writeln!(out, "search {}", search.number)?;
    if let Some(bases) = search.bases {
        return search_on(out, search, bases, steps, work, store);
    }
    let query = search.query;
    let fine = prepare_mover(out, b"block", search, query.block, steps, block, work)?;
    let also = match query.allow {
        None => true,
        Some(mover) => prepare_mover(out, b"allow", search, mover, steps, allow, work)?,
    };
    if fine && also {
        return search_on(out, search, Bases { block, allow }, steps, work, store);
    }
    Ok(())
}
