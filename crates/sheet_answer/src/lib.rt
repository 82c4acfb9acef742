// The drive sheet: from a text to the text of its answer.
#![tactic(auto)]

ghost use Rattle.sheet_answer.specs.Answers.{Answers};

use base_model::SIDES;
use sheet_form::{
    FIXED, MOST_BYTES, MOST_CELLS, MOST_GROUPS, MOST_OBSTACLES, MOST_PLACES, NO_SHEET, WORDS,
};

// Writes the answer to a text: how many bytes it has. None: out has fewer than `sheet_write::ENOUGH` bytes, and nothing is written.
pub fn answer(text: &[u8], out: &mut [u8]) -> Option<usize>
    ensures { Answers text.now out.old out.new result }
{
    if out.len() < sheet_write::ENOUGH {
        return None;
    }
    if MOST_BYTES < text.len() {
        return Some(sheet_write::write_refused(out, NO_SHEET));
    }
    let mut fixed = [0u32; FIXED];
    let mut cells = [0u8; MOST_CELLS];
    let mut obstacles = [0u32; SIDES * MOST_OBSTACLES];
    let mut groups = [0u32; MOST_GROUPS];
    let mut places = [0u32; WORDS * MOST_PLACES];
    let Some(k) = sheet_read::read_sheet(
        text,
        &mut fixed,
        &mut cells,
        &mut obstacles,
        &mut groups,
        &mut places,
    ) else {
        return Some(sheet_write::write_refused(out, NO_SHEET));
    };
    if !sheet_words::within_caps(&fixed) {
        return Some(sheet_write::write_refused(out, NO_SHEET));
    }
    Some(sheet_values::driven(k, &fixed, &cells, &obstacles, &groups, &places, out))
}
