// The bounds of a rectangular domain.

/// The low and high bounds and the steps of a rectangular domain, one of each per coordinate.
#[derive(Drop)]
pub struct Bounds {
    pub low: Vec<i32>,
    pub high: Vec<i32>,
    pub step: Vec<i32>,
}
