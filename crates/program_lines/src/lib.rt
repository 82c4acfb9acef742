// Stored searches, one a line: each cut into its runs and played.
#![tactic(auto)]

use call_lengths::{Store, Work};
use program_words::stored::Search;
use program_words::words::Line;
use std::io;
use std::io::Write;

// Answers the searches of a text, one a line, up to the first line that is none.
pub fn answer_all<W: Write>(
    out: &mut W,
    text: &[u8],
    steps: &[i32],
    line: &mut Line,
    block: &mut [u8],
    allow: &mut [u8],
    work: &mut Work<'_>,
    store: &mut Store<'_>,
) -> io::Result<bool> {
    let mut rest = text;
    while !rest.is_empty() {
        let Some(after) = line.read(rest) else {
            return Ok(false);
        };
        let Some(search) = Search::of(line) else {
            return Ok(false);
        };
        program_play::search_for(out, &search, steps, block, allow, work, store)?;
        rest = after;
    }
    Ok(true)
}
