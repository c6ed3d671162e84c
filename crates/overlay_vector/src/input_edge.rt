//! Edges with data as they are added.

use overlay_geom::point::IntPoint;

/// An edge to be added, from a to b, with its data.
#[derive(Debug, Clone, Copy, PartialEq, Eq)]
pub struct InputEdge<I, D> {
    /// Where the edge begins.
    pub a: IntPoint<I>,
    /// Where it ends.
    pub b: IntPoint<I>,
    /// What it carries.
    pub edge_data: D,
}
