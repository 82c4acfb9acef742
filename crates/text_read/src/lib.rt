// Lines read by their pattern: one, one or none, or as many as stand there. Every public function answers every input; none has a
// `requires`.
#![tactic(auto)]

ghost use Rattle.std.specs.Prelude.{◌≡◌, true, ◌≤◌, length};
ghost use Rattle.text_forms.specs.Patterns.{repeats};
ghost use Rattle.text_read.specs.Answers.{LineRead, RowsRead, OptionalRead};

// Why `line` reads none: the place at fault; or nothing was looked at, since the place is beyond the text, the pattern cannot be read or
// the area is too short.
#[derive(Clone, Copy, PartialEq, Eq, Debug)]
pub enum LineError {
    Wrong(usize),
    Beyond,
    Pattern,
    Short,
}

// Lines that were read: how many they and their numbers are, the place after them, and where the next line is at fault.
#[derive(Clone, Copy, PartialEq, Eq, Debug)]
pub struct Several {
    pub count: usize,
    pub used: usize,
    pub next: usize,
    pub fault: usize,
}

// Why `rows` and `optional` do not read: there is one more line than the area holds, or nothing was looked at, as above.
#[derive(Clone, Copy, PartialEq, Eq, Debug)]
pub enum RowsError {
    Full,
    Beyond,
    Pattern,
}

// Reads a line by its pattern: its numbers go to the front of out, and the place after it is the answer.
pub fn line(s: &[u8], at: usize, pattern: &[u8], out: &mut [u32]) -> Result<usize, LineError>
    ensures { LineRead pattern.now s.now at out.old out.new result }
{
    if !text_lines::readable(pattern) {
        return Err(LineError::Pattern);
    }
    if s.len() < at {
        return Err(LineError::Beyond);
    }
    if out.len() < text_lines::width(pattern) {
        return Err(LineError::Short);
    }
    let next = text_lines::line_end(s, at, pattern).map_err(LineError::Wrong)?;
    text_lines::store(s, at, pattern, out);
    Ok(next)
}

// Reads one line by its pattern or none.
pub fn optional(s: &[u8], at: usize, pattern: &[u8], out: &mut [u32]) -> Result<Several, RowsError>
    ensures { OptionalRead pattern.now s.now at out.old out.new result }
{
    if !text_lines::readable(pattern) {
        return Err(RowsError::Pattern);
    }
    if s.len() < at {
        return Err(RowsError::Beyond);
    }
    match text_lines::line_end(s, at, pattern) {
        Err(fault) => Ok(Several {
            count: 0,
            used: 0,
            next: at,
            fault,
        }),
        Ok(n) => {
            let w = text_lines::width(pattern);
            if out.len() < w {
                return Err(RowsError::Full);
            }
            text_lines::store(s, at, pattern, out);
            Ok(Several {
                count: 1,
                used: w,
                next: n,
                fault: n,
            })
        }
    }
}

// The lines of a pattern that stand one after the other.
fn rows_at(s: &[u8], at: usize, pattern: &[u8], out: &mut [u32]) -> Result<Several, RowsError>
    requires at_in_bounds { at ≤ length s.now }
    requires pattern_value { repeats pattern.now ≡ true }
    ensures { RowsRead pattern.now s.now at out.old out.new result }
{
    let w = text_lines::width(pattern);
    let mut count = 0;
    let mut used = 0;
    let mut next = at;
    loop {
        match text_lines::line_end(s, next, pattern) {
            Err(fault) => {
                return Ok(Several {
                    count,
                    used,
                    next,
                    fault,
                });
            }
            Ok(n) => {
                if out.len() - used < w {
                    return Err(RowsError::Full);
                }
                text_lines::store(s, next, pattern, &mut out[used..]);
                count += 1;
                used += w;
                next = n;
            }
        }
    }
}

// Reads as many lines by one pattern as stand there: their numbers go to the front of out.
pub fn rows(s: &[u8], at: usize, pattern: &[u8], out: &mut [u32]) -> Result<Several, RowsError>
    ensures { RowsRead pattern.now s.now at out.old out.new result }
{
    if !text_lines::can_repeat(pattern) {
        return Err(RowsError::Pattern);
    }
    if s.len() < at {
        return Err(RowsError::Beyond);
    }
    rows_at(s, at, pattern, out)
}
