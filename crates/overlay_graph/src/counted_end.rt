//! Ends of edges with their counts.

use overlay_geom::point::IntPoint;

/// An end of an edge, with the edge's counts at its larger end, and the counts with opposite signs at its smaller end.
#[derive(Debug, Clone, Copy)]
pub(crate) struct CountedEnd<I> {
    /// The end.
    pub point: IntPoint<I>,
    /// Number of times that the subject enters the end along the edge, minus the number of times that it leaves.
    pub subj: i64,
    /// That number for the clip.
    pub clip: i64,
}
