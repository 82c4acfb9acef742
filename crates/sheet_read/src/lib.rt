// The drive sheet's text, read: all its parts one after the other.
#![tactic(auto)]

ghost use Rattle.sheet_read.specs.Answers.{SheetLent, SheetRead};

// How many of each kind a sheet has, and whether it has an allowed mover.
#[derive(Clone, Copy, PartialEq, Eq, Debug)]
pub struct Counts {
    pub cells: usize,
    pub obstacles: usize,
    pub allow: bool,
    pub groups: usize,
    pub places: usize,
}

// Reads a sheet: the numbers of the lines that stand once go to fixed, those of the other lines and the cells to areas of their own. None
// is the answer where the text is no sheet, or one with more than the areas hold.
pub fn read_sheet(
    text: &[u8],
    fixed: &mut [u32],
    cells: &mut [u8],
    obstacles: &mut [u32],
    groups: &mut [u32],
    places: &mut [u32],
) -> Option<Counts>
    requires { SheetLent text.now fixed.old cells.old obstacles.old groups.old places.old }
    ensures { SheetRead text.now fixed.new cells.new
        obstacles.new groups.new places.new result }
{
    let map = sheet_lines::map_line(text, fixed, cells)?;
    let around = sheet_lines::rows_at(text, map.next, b"(obstacle # # # #)\n", obstacles)?;
    let query = sheet_lines::query_lines(text, around.next, fixed)?;
    let limits = sheet_lines::limit_lines(text, query, fixed)?;
    let slots = sheet_lines::groups_line(text, limits.next, fixed, groups)?;
    let placed = sheet_lines::rows_at(
        text,
        slots.next,
        b"(place $ $ $ $ (# # # #) (# # # #))\n",
        places,
    )?;
    if placed.next < text.len() {
        return None;
    }
    Some(Counts {
        cells: map.count,
        obstacles: around.count,
        allow: limits.allow,
        groups: slots.count,
        places: placed.count,
    })
}
