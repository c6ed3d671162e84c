//! An edge with its filled sides and its data.

use overlay_geom::point::IntPoint;

/// The sides of an edge that the subject and the clip fill: a sum of the four bits below.
pub type SideFill = u8;

/// The subject fills the left side of the edge.
pub const SUBJ_LEFT: SideFill = 1;
/// The subject fills the right side of the edge.
pub const SUBJ_RIGHT: SideFill = 2;
/// The clip fills the left side of the edge.
pub const CLIP_LEFT: SideFill = 4;
/// The clip fills the right side of the edge.
pub const CLIP_RIGHT: SideFill = 8;

/// An edge from a to b with its filled sides and its data.
#[derive(Debug, Clone, Copy, PartialEq, Eq)]
pub struct DataVectorEdge<I, D> {
    /// The start of the edge.
    pub a: IntPoint<I>,
    /// The end of the edge.
    pub b: IntPoint<I>,
    /// The filled sides, seen in the direction from a to b.
    pub fill: SideFill,
    /// The value that the edge carries.
    pub edge_data: D,
}
