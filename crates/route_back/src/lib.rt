// The way back over the predecessors, and the working areas wiped.
#![tactic(auto)]

ghost use Rattle.std.specs.Prelude.{◌≡◌, ◌≤◌, ◌<◌, ◌^◌, ◌++◌, length, drop, replicate};
ghost use Rattle.route_back.specs.Ways.{Leads, BackCounted, RouteLaid};

// The number of centres on the way back from end to start, both counted.
pub fn count(predecessors: &[u32], start: usize, end: usize) -> usize
    requires { Leads predecessors.now start end (2 ^ 32) }
    ensures { BackCounted predecessors.now start end result }
{
    let mut n = 1;
    let mut x = end;
    while x != start {
        x = predecessors[x] as usize - 1;
        n += 1;
    }
    n
}

// Writes the n centres on the way from start to end into the first entries of `route`.
pub fn lay(predecessors: &[u32], start: usize, end: usize, n: usize, route: &mut [u32])
    requires leads { Leads predecessors.now start end (length route.old) }
    requires back_counted { BackCounted predecessors.now start end n }
    requires end_bound { end < 4294967296 }
    ensures { RouteLaid predecessors.now start end n route.old route.new }
{
    let mut x = end as u32;
    for i in (1..n).rev() {
        route[i] = x;
        x = predecessors[x as usize] - 1;
    }
    route[0] = x;
}

// Makes the entries that a search over c centres wrote zero again.
pub fn wipe(queue: &mut [u32], predecessors: &mut [u32], tail: usize, c: usize)
    requires { (tail ≤ length queue.old) × (c ≤ length predecessors.old) }
    ensures queue_after { queue.new ≡ replicate tail 0 ++ drop tail queue.old }
    ensures predecessors_after { predecessors.new ≡ replicate c 0 ++ drop c predecessors.old }
{
    queue[..tail].fill(0);
    predecessors[..c].fill(0);
}
