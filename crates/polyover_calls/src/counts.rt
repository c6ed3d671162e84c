//! How much an answer has.

/// How much an answer has: what its arrays hold, or have to.
#[repr(C)]
#[derive(Clone, Copy)]
pub struct Counts {
    /// How many coordinates: two for each point.
    pub coordinates: usize,
    /// How many contours.
    pub contours: usize,
    /// How many shapes.
    pub shapes: usize,
}
