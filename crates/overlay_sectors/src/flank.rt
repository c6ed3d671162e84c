//! The two sides of a point, left and right.

/// One half of the points near a point: those left of it, or the others.
#[derive(Debug, Clone, Copy, PartialEq, Eq)]
pub enum Flank {
    /// The points left of it.
    Left,
    /// The points right of it, and those above and below.
    Right,
}
