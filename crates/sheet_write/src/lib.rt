// A search's result, or a refusal, as text.
#![tactic(auto)]

ghost use Rattle.std.specs.Prelude.{◌≡◌, map, ◌+◌, ◌≤◌, length};
ghost use Rattle.base_laws.specs.Lists.{below, flat};
ghost use Rattle.base_model.specs.Answers.{refusal, said_of};
ghost use Rattle.rule_calls.specs.Areas.{Store};
ghost use Rattle.text_forms.specs.Writing.{Put};
ghost use Rattle.sheet_texts.specs.Texts.{refusal_text, result_text};
ghost use Rattle.sheet_texts.specs.Parts.{enough, head_text, row_text, Writable};

use base_model::{EXHAUSTED, RESULT_LIMIT, ROW, Record, Refusal, STATE_LIMIT};

// How many bytes hold any result.
pub const ENOUGH: usize = 262144;

// Writes the refusal of a number.
pub fn write_refused(out: &mut [u8], n: u32) -> usize
    requires { 64 ≤ length out.old }
    ensures { Put (refusal_text (refusal n)) out.old 0 out.new result }
{
    sheet_put::put(out, 0, b"(refused $)\n", &[n])
}

// Writes a refusal of a call.
pub fn write_refusal(out: &mut [u8], r: Refusal) -> usize
    requires { 64 ≤ length out.old }
    ensures { Put (refusal_text (said_of r)) out.old 0 out.new result }
{
    write_refused(out, u32::from(r))
}

// Writes the lines of the layouts.
#[tactic(auto, using(sheet_texts::proofs::Lengths::here))]
fn put_layouts(
    out: &mut [u8],
    at: usize,
    count: usize,
    routes: [u32; 32],
    layouts: &[u16],
    points: &[u32],
) -> usize
    requires writable { Writable count routes layouts.now points.now }
    requires count_in_bounds { at + length (flat (map (row_text routes layouts.now points.now) (below count))) ≤ length out.old }
    ensures { Put (flat (map (row_text routes layouts.now points.now) (below count)))
        out.old at out.new result }
{
    let mut i = at;
    let mut from = 0;
    for k in 0..count {
        let n = routes[k] as usize;
        let to = from + 2 * n;
        let row = ROW * k + 1;
        let end = row + layouts[ROW * k] as usize;
        i = sheet_put::put_layout(out, i, k as u32, &layouts[row..end], n, &points[from..to]);
        from = to;
    }
    i
}

// Writes the first line of a result.
fn put_head(out: &mut [u8], reason: u32, evaluations: u32, placements: u32, layouts: u32) -> usize
    requires { length (head_text reason evaluations placements layouts) ≤ length out.old }
    ensures { Put (head_text reason evaluations placements layouts) out.old 0 out.new result }
{
    let values = [evaluations, placements, layouts];
    match reason {
        EXHAUSTED => sheet_put::put(out, 0, b"(result Exhausted $ $ $)\n", &values),
        STATE_LIMIT => sheet_put::put(out, 0, b"(result StateLimit $ $ $)\n", &values),
        RESULT_LIMIT.. => sheet_put::put(out, 0, b"(result ResultLimit $ $ $)\n", &values),
        _ => sheet_put::put(out, 0, b"(result Running $ $ $)\n", &values),
    }
}

// Writes a result.
pub fn write_result(out: &mut [u8], rec: Record, layouts: &[u16], points: &[u32]) -> usize
    requires writable { Writable rec.layouts rec.routes layouts.now points.now }
    requires enough_in_bounds { enough ≤ length out.old }
    ensures { (a : Store)
        → a.layouts ≡ layouts.now
        → a.points ≡ points.now
        → Put (result_text rec a) out.old 0 out.new result }
{
    let at = put_head(
        out,
        rec.reason,
        rec.evaluations,
        rec.placements,
        rec.layouts,
    );
    put_layouts(out, at, rec.layouts as usize, rec.routes, layouts, points)
}
