//! Where a point lies.

/// Where a point lies in contours or shapes.
#[derive(Debug, Clone, Copy, PartialEq, Eq)]
pub enum PointLocation {
    /// On no edge, and inside.
    Inside,
    /// On an edge, an end included.
    Boundary,
    /// On no edge, and outside.
    Outside,
}
