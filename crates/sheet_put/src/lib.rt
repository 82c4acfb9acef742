// The line of a layout as text, part by part: its members, the points of its route, and any line that has room. Apart from the whole
// result: a part that is written wrong is refused without it.
#![tactic(auto)]

ghost use Rattle.std.specs.Prelude.{◌≡◌, map, ◌+◌, ◌*◌, ◌≤◌, length};
ghost use Rattle.rule_calls.specs.Areas.{positions};
ghost use Rattle.text_forms.specs.Forms.{decimal};
ghost use Rattle.text_forms.specs.Patterns.{line};
ghost use Rattle.text_forms.specs.Writing.{Put};
ghost use Rattle.sheet_texts.specs.Texts.{spaced, point_text, layout_text};
ghost use Rattle.sheet_texts.specs.Parts.{gap};

// Writes a line that has room.
pub fn put(out: &mut [u8], at: usize, pattern: &[u8], values: &[u32]) -> usize
    requires fact { (line pattern.now).fits values.now }
    requires values_in_bounds { at + length ((line pattern.now).spell values.now) ≤ length out.old }
    ensures { Put ((line pattern.now).spell values.now) out.old at out.new result }
{
    text_write::put_line(out, at, pattern, values).unwrap()
}

// Writes line k of a row of them, with a space before all but the first.
fn put_spaced(out: &mut [u8], at: usize, k: usize, pattern: &[u8], values: &[u32]) -> usize
    requires fact { (line pattern.now).fits values.now }
    requires values_in_bounds { at + length (gap k ((line pattern.now).spell values.now)) ≤ length out.old }
    ensures { Put (gap k ((line pattern.now).spell values.now)) out.old at out.new result }
{
    if k == 0 {
        return put(out, at, pattern, values);
    }
    let i = put(out, at, b" ", &[]);
    put(out, i, pattern, values)
}

// Writes the members of a row.
fn put_members(out: &mut [u8], at: usize, row: &[u16]) -> usize
    requires { at + length (spaced (map decimal row.now)) ≤ length out.old }
    ensures { Put (spaced (map decimal row.now)) out.old at out.new result }
{
    let mut i = at;
    for (k, &member) in row.iter().enumerate() {
        i = put_spaced(out, i, k, b"$", &[member as u32]);
    }
    i
}

// Writes the points of a route of n points.
fn put_points(out: &mut [u8], at: usize, n: usize, route: &[u32]) -> usize
    requires route_len { length route.now ≡ 2 * n }
    requires route_in_bounds { at + length (spaced (map point_text (positions route.now))) ≤ length out.old }
    ensures { Put (spaced (map point_text (positions route.now))) out.old at out.new result }
{
    let mut i = at;
    for k in 0..n {
        i = put_spaced(out, i, k, b"($ $)", &[route[2 * k], route[2 * k + 1]]);
    }
    i
}

// Writes the line of layout k, whose route has n points.
pub fn put_layout(out: &mut [u8], at: usize, k: u32, row: &[u16], n: usize, route: &[u32]) -> usize
    requires route_len { length route.now ≡ 2 * n }
    requires route_in_bounds { at + length (layout_text k row.now (positions route.now)) ≤ length out.old }
    ensures { Put (layout_text k row.now (positions route.now))
        out.old at out.new result }
{
    let a = put(out, at, b"(layout $ (", &[k]);
    let b = put_members(out, a, row);
    let c = put(out, b, b") (", &[]);
    let d = put_points(out, c, n, route);
    put(out, d, b"))\n", &[])
}
