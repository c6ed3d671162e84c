//! Slabs: the points with x-coordinates between two numbers.

ghost use Rattle.std.specs.Prelude.{◌≡◌};
ghost use Rattle.overlay_geom.specs.Points.{plain_point};
ghost use Rattle.overlay_order.specs.Content.{plain_edge};
ghost use Rattle.overlay_located.specs.Slabs.{plain_slab, is_within, spans, is_beside};

use overlay_geom::number::IntNumber;
use overlay_geom::point::IntPoint;
use overlay_order::count::EdgeCount;
use overlay_order::edge::CountedEdge;
use overlay_pairs::extents::is_less;

/// The points with x-coordinates between two numbers.
#[derive(Clone, Copy)]
pub(crate) struct Slab<I> {
    /// The least x-coordinate.
    pub from: I,
    /// The greatest.
    pub to: I,
}

/// Returns whether the point lies in the slab.
pub(crate) fn is_within<I: IntNumber>(slab: Slab<I>, p: IntPoint<I>) -> bool
    ensures { result ≡ is_within (plain_slab I.whole slab) (plain_point I.whole p) }
{
    !is_less(p.x, slab.from) && !is_less(slab.to, p.x)
}

/// Returns whether the edge begins left of the slab and ends right of it.
pub(crate) fn spans<I: IntNumber, C: EdgeCount>(slab: Slab<I>, e: &CountedEdge<I, C>) -> bool
    ensures { result ≡ spans (plain_slab I.whole slab) (plain_edge I.whole C.counts e.now) }
{
    is_less(e.a.x, slab.from) && is_less(slab.to, e.b.x)
}

/// Returns whether the edge ends left of the slab or begins right of it.
pub(crate) fn is_beside<I: IntNumber, C: EdgeCount>(slab: Slab<I>, e: &CountedEdge<I, C>) -> bool
    ensures { result ≡ is_beside (plain_slab I.whole slab) (plain_edge I.whole C.counts e.now) }
{
    is_less(e.b.x, slab.from) || is_less(slab.to, e.a.x)
}
