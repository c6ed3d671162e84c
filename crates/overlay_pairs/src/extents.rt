//! Boxes of edges and points: a range of y-coordinates and a range of places in the list.

ghost use Rattle.std.specs.Prelude.{◌≡◌, ◌↔◌, int_lt, cond, IsTrue};
ghost use Rattle.overlay_geom.specs.Points.{plain_point};
ghost use Rattle.overlay_order.specs.Content.{plain_edge};
ghost use Rattle.overlay_pairs.specs.Extents.{extent_of, extent_of_point, plain_extent, Encloses, IsApart};

use overlay_geom::number::IntNumber;
use overlay_geom::point::IntPoint;
use overlay_order::count::EdgeCount;
use overlay_order::edge::CountedEdge;

/// A box of edges or points: the range of their y-coordinates, and the range of their places in a list.
#[derive(Clone, Copy)]
pub struct Extent<I> {
    /// The least y-coordinate.
    pub low: I,
    /// The greatest y-coordinate.
    pub high: I,
    /// The first place.
    pub first: usize,
    /// The last place.
    pub last: usize,
}

/// Returns the box of the edge at a place.
pub(crate) fn extent_of<I: IntNumber, C: EdgeCount>(
    e: &CountedEdge<I, C>,
    place: usize,
) -> Extent<I>
    ensures { plain_extent I.whole result ≡ extent_of (plain_edge I.whole C.counts e.now) place }
{
    let (low, high) = ordered(e.a.y, e.b.y);
    Extent {
        low,
        high,
        first: place,
        last: place,
    }
}

/// Returns the box of the point at a place.
pub(crate) fn extent_of_point<I: IntNumber>(v: IntPoint<I>, place: usize) -> Extent<I>
    ensures { plain_extent I.whole result ≡ extent_of_point (plain_point I.whole v) place }
{
    Extent {
        low: v.y,
        high: v.y,
        first: place,
        last: place,
    }
}

/// Returns the least box that encloses both.
pub(crate) fn joined<I: IntNumber>(s: Extent<I>, t: Extent<I>) -> Extent<I>
    ensures low { I.whole result.low ≡ cond (int_lt (I.whole s.low) (I.whole t.low)) (I.whole s.low) (I.whole t.low) }
    ensures high { I.whole result.high
        ≡ cond (int_lt (I.whole s.high) (I.whole t.high)) (I.whole t.high) (I.whole s.high) }
    ensures first { Encloses (plain_extent I.whole result) (plain_extent I.whole s) }
    ensures second { Encloses (plain_extent I.whole result) (plain_extent I.whole t) }
{
    Extent {
        low: ordered(s.low, t.low).0,
        high: ordered(s.high, t.high).1,
        first: s.first.min(t.first),
        last: s.last.max(t.last),
    }
}

/// Returns whether the boxes share no height or no place.
pub(crate) fn is_apart<I: IntNumber>(s: Extent<I>, t: Extent<I>) -> bool
    ensures { IsTrue result ↔ IsApart (plain_extent I.whole s) (plain_extent I.whole t) }
{
    is_less(s.high, t.low) | is_less(t.high, s.low) | (s.last < t.first) | (t.last < s.first)
}

/// Returns whether s lies wholly below t.
pub(crate) fn is_wholly_below<I: IntNumber>(s: Extent<I>, t: Extent<I>) -> bool
    ensures { result ≡ int_lt (I.whole s.high) (I.whole t.low) }
{
    is_less(s.high, t.low)
}

/// Returns the two numbers, the lesser first.
pub(crate) fn ordered<I: IntNumber>(y: I, z: I) -> (I, I)
    ensures low { I.whole result.0 ≡ cond (int_lt (I.whole y) (I.whole z)) (I.whole y) (I.whole z) }
    ensures high { I.whole result.1 ≡ cond (int_lt (I.whole y) (I.whole z)) (I.whole z) (I.whole y) }
{
    if is_less(y, z) { (y, z) } else { (z, y) }
}

/// Returns whether y is less than z.
pub fn is_less<I: IntNumber>(y: I, z: I) -> bool
    ensures { result ≡ int_lt (I.whole y) (I.whole z) }
{
    y.compare(z).is_lt()
}
