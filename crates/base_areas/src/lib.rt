// Clearing lent areas.
#![tactic(auto)]

ghost use Rattle.std.specs.Prelude.{◌≡◌, ◌++◌, ◌+◌, ◌≤◌, length, drop, replicate};
ghost use Rattle.base_laws.specs.Fill.{over};

// The first n entries become zero.
pub fn clear<T: Copy>(s: &mut [T], n: usize, zero: T)
    requires { n ≤ length s.old }
    ensures { s.new ≡ replicate n zero ++ drop n s.old }
{
    for x in &mut s[..n] {
        *x = zero;
    }
}

// The n entries from `at` on become zero.
pub fn clear_from<T: Copy>(s: &mut [T], at: usize, n: usize, zero: T)
    requires { at + n ≤ length s.old }
    ensures { s.new ≡ over s.old at (replicate n zero) }
{
    clear(&mut s[at..], n, zero);
}
