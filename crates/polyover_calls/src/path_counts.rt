//! How much an answer has whose parts are paths.

/// How much an answer has: what its arrays hold, or have to.
#[repr(C)]
#[derive(Clone, Copy)]
pub struct PathCounts {
    /// How many coordinates: two for each point.
    pub coordinates: usize,
    /// How many paths.
    pub paths: usize,
}
