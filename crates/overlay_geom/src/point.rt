//! Points with whole coordinates, and the test whether points are in range.

ghost use Rattle.std.specs.Prelude.{◌≡◌, ◌↔◌, IsTrue};
ghost use Rattle.std.specs.Ordering.{ordering_then};
ghost use Rattle.overlay_geom.specs.Points.{plain_point, plain_points, InRange, AllInRange};

use crate::number::IntNumber;
use std::cmp::Ordering;

/// A point with whole coordinates, x to the right and y up. Points are ordered by x, then by y.
#[derive(Debug, Clone, Copy, PartialEq, Eq, PartialOrd, Ord)]
pub struct IntPoint<I> {
    /// The x-coordinate, to the right.
    pub x: I,
    /// The y-coordinate, upwards.
    pub y: I,
}

impl<I> IntPoint<I> {
    /// Makes the point with these coordinates, in range or not.
    pub fn new(x: I, y: I) -> Self
        ensures { result ≡ record { x = x; y = y } }
    {
        IntPoint { x, y }
    }
}

/// Compares two points in the derived order: by x, then by y. This is the law of that order. `==` compares both
/// coordinates.
pub fn order_of_points<I: Ord>(p: &IntPoint<I>, q: &IntPoint<I>) -> Ordering
    ensures { result ≡ ordering_then (I.Ord.cmp p.now.x q.now.x) (I.Ord.cmp p.now.y q.now.y) }
{
    p.cmp(q)
}

impl<I: IntNumber> IntPoint<I> {
    // Returns whether both coordinates are in range.
    fn is_in_range(self) -> bool
        ensures { IsTrue result ↔ InRange I.limit (plain_point I.whole self) }
    {
        self.x.is_in_range() && self.y.is_in_range()
    }
}

/// Returns whether every point is in the coordinate range, `|c| <= 2^(B-2) - 1` for B bits. For no points it returns
/// true. It takes no memory.
pub fn in_range<I: IntNumber>(points: &[IntPoint<I>]) -> bool
    ensures { IsTrue result ↔ AllInRange I.limit (plain_points I.whole points.now) }
{
    for p in points {
        if !p.is_in_range() {
            return false;
        }
    }
    true
}
