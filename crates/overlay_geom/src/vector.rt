//! Vectors from one point to another.

ghost use Rattle.std.specs.Prelude.{◌≡◌, ◌*◌};
ghost use Rattle.overlay_geom.specs.Numbers.{Within};
ghost use Rattle.overlay_geom.specs.Points.{plain_point, plain_way};
ghost use Rattle.overlay_geom.specs.Points.{InRange, IsDifference, cross_of};
ghost use Rattle.overlay_geom.specs.Plane.{cross_at};

use crate::number::IntNumber;
use crate::point::IntPoint;
use std::ops::Sub;

/// The vector from one point to another, in the units of the coordinates.
#[derive(Debug, Clone, Copy, PartialEq, Eq)]
pub struct IntVector<I> {
    /// Length to the right.
    pub x: I,
    /// Length upwards.
    pub y: I,
}

impl<I> IntVector<I> {
    /// Makes the vector with these coordinates.
    pub fn new(x: I, y: I) -> Self
        ensures { result ≡ record { x = x; y = y } }
    {
        IntVector { x, y }
    }
}

impl<I: IntNumber> IntVector<I> {
    /// Returns the cross product with another vector, `x * v.y - y * v.x`. It is positive where `v` points to the left
    /// of this vector, negative to the right, and 0 where they are parallel. Both are differences of points in range,
    /// so it is exact.
    pub fn cross_product(self, v: IntVector<I>) -> I::Wide
        requires this { InRange (2 * I.limit) (plain_way I.whole self) }
        requires other { InRange (2 * I.limit) (plain_way I.whole v) }
        ensures value { I.Wide.whole result ≡ cross_of (plain_way I.whole self) (plain_way I.whole v) }
        ensures fits { Within I.Wide.limit (I.Wide.whole result) }
    {
        I::cross(self.x, self.y, v.x, v.y)
    }
}

impl<I: IntNumber> Sub for IntPoint<I> {
    type Output = IntVector<I>;

    ghost can_sub = { λ p q.
        InRange I.limit (plain_point I.whole p) × InRange I.limit (plain_point I.whole q) };

    ghost sub_gives = { λ p q v.
        IsDifference I.limit (plain_point I.whole p) (plain_point I.whole q) (plain_way I.whole v) };

    /// Returns the vector from `other` to this point. Both points are in range.
    fn sub(self, other: IntPoint<I>) -> IntVector<I> {
        IntVector {
            x: self.x.minus(other.x),
            y: self.y.minus(other.y),
        }
    }
}

/// Returns the cross product of the vectors from v to p and from v to q. It is positive where q lies to the left of the
/// line from v to p, negative to the right, and 0 where the three points are collinear. It can be negated.
pub fn cross_at<I: IntNumber>(v: IntPoint<I>, p: IntPoint<I>, q: IntPoint<I>) -> I::Wide
    requires v { InRange I.limit (plain_point I.whole v) }
    requires p { InRange I.limit (plain_point I.whole p) }
    requires q { InRange I.limit (plain_point I.whole q) }
    ensures value { I.Wide.whole result
        ≡ cross_at (plain_point I.whole v) (plain_point I.whole p) (plain_point I.whole q) }
    ensures fits { Within I.Wide.limit (I.Wide.whole result) }
{
    (p - v).cross_product(q - v)
}
