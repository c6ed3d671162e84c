//! A meeting point of an edge with another edge.

use crate::part::Part;
use overlay_geom::number::WideIntNumber;

/// A meeting point of an edge: where on it the point lies, and which edge it meets there.
#[derive(Clone, Copy)]
pub struct MetAlong<W: WideIntNumber> {
    /// The part of the edge at which the point lies.
    pub part: Part<W>,
    /// The number of the other edge.
    pub other: usize,
}
