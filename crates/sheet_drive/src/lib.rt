// The drive over a sheet's values: the mover to block prepared, then the allowed mover, if there is one, and the search.
#![tactic(auto)]

ghost use Rattle.std.specs.Prelude.{◌≤◌, length};
ghost use Rattle.sheet_texts.specs.Parts.{enough, Front};
ghost use Rattle.sheet_form.specs.Sheets.{Sheet};
ghost use Rattle.sheet_rule.specs.Drive.{drive_text};
ghost use Rattle.sheet_allowed.specs.Inner.{FlatAs};

use call_lengths::Work;
use set_places::Given;
use sheet_allowed::FlatSheet;
use sheet_form::{MOST_CENTRES, MOST_COUNTS};

// Prepares block, then the allowed mover if there is one, and searches.
pub fn drive(sheet: &FlatSheet<'_>, steps: &[i32], out: &mut [u8]) -> usize
    requires { enough ≤ length out.old }
    ensures { (s : Sheet)
        → FlatAs s sheet.now
        → Front (drive_text steps.now s) out.old out.new result }
{
    let mut block_base = [0u8; MOST_CENTRES];
    let mut counts = [0i32; MOST_COUNTS];
    let mut map = [0u8; MOST_CENTRES];
    let mut queue = [0u32; MOST_CENTRES];
    let mut predecessors = [0u32; MOST_CENTRES];
    let mut route = [0u32; MOST_CENTRES];
    let mut work = Work {
        counts: &mut counts,
        map: &mut map,
        queue: &mut queue,
        predecessors: &mut predecessors,
        route: &mut route,
    };
    let query = sheet.query;
    if let Err(refusal) = call_prepare::prepare(
        &sheet.preparing(query.block),
        steps,
        &mut block_base,
        &mut work,
    ) {
        return sheet_write::write_refusal(out, refusal);
    }
    if let Some(mover) = query.allow {
        return sheet_allowed::allowed(sheet, mover, &block_base, steps, &mut work, out);
    }
    let no_base = [0u8; MOST_CENTRES];
    let given = Given {
        query,
        places: sheet.places,
        block_base: &block_base,
        allow_base: &no_base,
    };
    sheet_search::search(&given, sheet.limits, steps, &mut work, out)
}
