// Digests of what is too long to print.
ghost use Rattle.std.specs.Prelude.{◌≡◌};

pub fn wide(x: u32) -> u64
    ensures { result ≡ x }
{
    x as u64
}

// A digest after one more number: the digest times 1,000,003, plus the number, plus 1, modulo 4,294,967,291.
fn mixed(h: u32, v: u32) -> u32 {
    ((wide(h) * 1000003 + wide(v) + 1) % 4294967291) as u32
}

// The digest after the first n entries, or all where there are fewer.
pub fn digest<T: Copy + Into<u32>>(h: u32, xs: &[T], n: usize) -> u32 {
    xs.iter().take(n).fold(h, |h, &x| mixed(h, x.into()))
}
