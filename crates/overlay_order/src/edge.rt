//! Counted edges.

ghost use Rattle.std.specs.Prelude.{◌≡◌};
ghost use Rattle.overlay_geom.specs.Edges.{ends_of};
ghost use Rattle.overlay_geom.specs.Plane.{edge_eq, edge_lt};
ghost use Rattle.overlay_order.specs.Content.{plain_edge, edge_cmp};

use crate::count::EdgeCount;
pub use overlay_geom::edge::compare_points;
use overlay_geom::edge::is_before;
use overlay_geom::edge_pair::is_same;
use overlay_geom::number::IntNumber;
use overlay_geom::point::IntPoint;
use std::cmp::Ordering;

/// An edge from its smaller to its larger end, and the value that it carries.
#[derive(Debug, Clone, Copy, PartialEq, Eq)]
pub struct CountedEdge<I, C> {
    /// The smaller end, by x and then by y.
    pub a: IntPoint<I>,
    /// The larger end.
    pub b: IntPoint<I>,
    /// The counts, and perhaps data: how often paths pass the edge from a to b, minus how often they pass it back.
    pub count: C,
}

/// Compares two edges: by their smaller ends, then by their larger ends.
pub fn compare_edges<I: IntNumber, C: EdgeCount>(
    e: &CountedEdge<I, C>,
    f: &CountedEdge<I, C>,
) -> Ordering
    ensures { result ≡ edge_cmp (plain_edge I.whole C.counts e.now) (plain_edge I.whole C.counts f.now) }
{
    if comes_before(e, f) {
        Ordering::Less
    } else if comes_before(f, e) {
        Ordering::Greater
    } else {
        Ordering::Equal
    }
}

/// Returns whether e comes before f: by their smaller ends, then by their larger ends.
pub fn comes_before<I: IntNumber, C: EdgeCount>(
    e: &CountedEdge<I, C>,
    f: &CountedEdge<I, C>,
) -> bool
    ensures { result ≡ edge_lt
        (ends_of (plain_edge I.whole C.counts e.now)) (ends_of (plain_edge I.whole C.counts f.now)) }
{
    is_before(e.a, f.a) || is_same(e.a, f.a) && is_before(e.b, f.b)
}

/// Returns whether two edges have equal ends.
pub fn have_same_ends<I: IntNumber, C: EdgeCount>(
    e: &CountedEdge<I, C>,
    f: &CountedEdge<I, C>,
) -> bool
    ensures { result ≡ edge_eq
        (ends_of (plain_edge I.whole C.counts e.now)) (ends_of (plain_edge I.whole C.counts f.now)) }
{
    is_same(e.a, f.a) && is_same(e.b, f.b)
}
