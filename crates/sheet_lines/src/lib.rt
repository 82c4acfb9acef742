// The lines of a drive sheet's text, read: one line, a run of lines, the cells, and each part of the sheet by its lines. Apart from the
// whole sheet: a line that goes to a wrong place is refused without it.
#![tactic(auto)]

ghost use Rattle.std.specs.Prelude.{◌≡◌, true, ◌≤◌, length};
ghost use Rattle.text_forms.specs.Patterns.{repeats};
ghost use Rattle.sheet_lines.specs.Answers.{LineRoom, LineAt, RowsAt, CellsAt, MapRead, LinesRead, LimitsRead, GroupsRead};

use sheet_form::{ALLOW, BLOCK, FIXED, LIMITS, SIZE, START, WINDOW};

// A part that stands there: how many lines, numbers or digits were read, and the place after it.
#[derive(Clone, Copy, PartialEq, Eq, Debug)]
pub struct Part {
    pub count: usize,
    pub next: usize,
}

// The lines of the limits: whether an allowed mover's stands before them, and the place after them.
#[derive(Clone, Copy, PartialEq, Eq, Debug)]
pub struct Limits {
    pub allow: bool,
    pub next: usize,
}

// Reads a line: its numbers go to fixed from the slot on, and the place after it is the answer.
fn line_at(text: &[u8], at: usize, pattern: &[u8], fixed: &mut [u32], slot: usize) -> Option<usize>
    requires { LineRoom pattern.now text.now at slot fixed.old }
    ensures { LineAt pattern.now text.now at slot fixed.old fixed.new result }
{
    text_read::line(text, at, pattern, &mut fixed[slot..]).ok()
}

// Reads as many lines as stand there; none is the answer where there are more than the area holds.
pub fn rows_at(text: &[u8], at: usize, pattern: &[u8], out: &mut [u32]) -> Option<Part>
    requires pattern_value { repeats pattern.now ≡ true }
    requires at_in_bounds { at ≤ length text.now }
    ensures { RowsAt pattern.now text.now at out.old out.new result }
{
    let read = text_read::rows(text, at, pattern, out).ok()?;
    Some(Part {
        count: read.count,
        next: read.next,
    })
}

// Reads the cells, if there are 1 to 64.
fn cells_at(text: &[u8], at: usize, cells: &mut [u8]) -> Option<Part>
    requires at_in_bounds { at ≤ length text.now }
    requires cells_len { length cells.old ≡ 64 }
    ensures { CellsAt text.now at cells.new result }
{
    let row = text_digits::digits(text, at, cells).ok()?;
    Some(Part {
        count: row.count,
        next: row.next,
    })
}

// The line of the map: width and height to fixed, the cells to an area of their own.
pub fn map_line(text: &[u8], fixed: &mut [u32], cells: &mut [u8]) -> Option<Part>
    requires fixed_len { length fixed.old ≡ 20 }
    requires cells_len { length cells.old ≡ 64 }
    ensures { MapRead text.now fixed.new cells.new result }
{
    let a = line_at(text, 0, b"(map $ $ ", fixed, SIZE)?;
    let row = cells_at(text, a, cells)?;
    let next = line_at(text, row.next, b")\n", fixed, FIXED)?;
    Some(Part {
        count: row.count,
        next,
    })
}

// The lines of the window, the ends and the mover to block, and the place after them.
pub fn query_lines(text: &[u8], at: usize, fixed: &mut [u32]) -> Option<usize>
    requires at_in_bounds { at ≤ length text.now }
    requires fixed_len { length fixed.old ≡ 20 }
    ensures { LinesRead text.now at fixed.old fixed.new result }
{
    let a = line_at(text, at, b"(window # # # #)\n", fixed, WINDOW)?;
    let b = line_at(text, a, b"(ends $ $ $ $)\n", fixed, START)?;
    line_at(text, b, b"(block $ $ $ $)\n", fixed, BLOCK)
}

// The line of the allowed mover, if there is one, and the line of the limits.
pub fn limit_lines(text: &[u8], at: usize, fixed: &mut [u32]) -> Option<Limits>
    requires at_in_bounds { at ≤ length text.now }
    requires fixed_len { length fixed.old ≡ 20 }
    ensures { LimitsRead text.now at fixed.old fixed.new result }
{
    let few = text_read::optional(text, at, b"(allow $ $ $ $)\n", &mut fixed[ALLOW..]).ok()?;
    let next = line_at(text, few.next, b"(limits $ $)\n", fixed, LIMITS)?;
    Some(Limits {
        allow: few.count == 1,
        next,
    })
}

// The line of the groups.
pub fn groups_line(text: &[u8], at: usize, fixed: &mut [u32], groups: &mut [u32]) -> Option<Part>
    requires text_len_bound { (length text.now ≤ 8192) × (at ≤ length text.now) }
    requires fixed_len { (length fixed.old ≡ 20) × (length groups.old ≡ 4096) }
    ensures { GroupsRead text.now at fixed.old fixed.new groups.new result }
{
    let a = line_at(text, at, b"(groups", fixed, FIXED)?;
    let rows = rows_at(text, a, b" $", groups)?;
    let next = line_at(text, rows.next, b")\n", fixed, FIXED)?;
    Some(Part {
        count: rows.count,
        next,
    })
}
