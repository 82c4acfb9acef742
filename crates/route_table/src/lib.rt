// The table of steps: eight x, y pairs, in the order in which a search tries them.
#![tactic(auto)]

ghost use Rattle.std.specs.Prelude.{◌≡◌, length};
ghost use Rattle.base_laws.specs.Lists.{select};
ghost use Rattle.rule_routes.specs.Edges.{step_by, steps_of, same_step, table_fits, original_steps};

// How many numbers a table has.
const TABLE_LENGTH: usize = 16;

// The order of steps of the original.
const STEPS: [i32; TABLE_LENGTH] = [1, 0, 0, 1, -1, 0, 0, -1, 1, 1, -1, 1, -1, -1, 1, -1];

// The order of steps of the original, as a table.
pub fn original_steps() -> [i32; 16]
    ensures { result ≡ original_steps }
{
    STEPS
}

// How often the step by x, y stands in a table.
fn times_in(steps: &[i32], x: i32, y: i32) -> usize
    ensures { result ≡ length (select (same_step (step_by x y)) (steps_of steps.now)) }
{
    let (pairs, _) = steps.as_chunks::<2>();
    pairs.iter().filter(|&&pair| pair == [x, y]).count()
}

// Whether the row is a table: sixteen numbers, and each of the eight steps stands in it exactly once.
pub fn table_fits(steps: &[i32]) -> bool
    ensures { result ≡ table_fits steps.now }
{
    let order = original_steps();
    let (each, _) = order.as_chunks::<2>();
    steps.len() == TABLE_LENGTH && each.iter().all(|&[x, y]| times_in(steps, x, y) == 1)
}
