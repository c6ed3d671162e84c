//! Edges in range.

ghost use Rattle.overlay_order.specs.Content.{plain_edge, IsHeld};

use overlay_geom::number::IntNumber;
use overlay_order::count::EdgeCount;
use overlay_order::edge::CountedEdge;

/// An edge in range.
#[derive(Drop)]
pub(crate) struct Line<I: IntNumber, C: EdgeCount> {
    /// The edge.
    pub edge: CountedEdge<I, C>,
    pub ghost held: { IsHeld I.limit (plain_edge I.whole C.counts edge) },
}
