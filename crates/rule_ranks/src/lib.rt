// The distance of a placement from the entrance: what it is measured with. Definitions and proofs alone.
#![tactic(auto)]

// A way across the map and down it.
#[derive(Clone, Copy)]
pub struct Vector {
    pub x: i64,
    pub y: i64,
}

// A squared distance in pixels, numerator / divisor. There is a rank up to the limit of the numerator.
#[derive(Clone, Copy)]
pub struct Measure {
    pub numerator: u64,
    pub divisor: u64,
    pub limit: u64,
}
