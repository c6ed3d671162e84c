//! Laws of the order of points.

ghost use Rattle.std.specs.Prelude.{◌≡◌};
ghost use Rattle.std.specs.Ordering.{ordering_then, is_eq};
ghost use Rattle.overlay_geom.specs.OrderedPoints.{EqualAlone};

use crate::point::IntPoint;

/// Returns `p == q` as it is derived. It is the law that two points are equal exactly where their order is `Equal`.
pub fn equality_of_points<I: Ord>(p: &IntPoint<I>, q: &IntPoint<I>) -> bool
    ensures { result ≡ is_eq (ordering_then (I.Ord.cmp p.now.x q.now.x) (I.Ord.cmp p.now.y q.now.y)) }
{
    p == q
}

/// Of whole points, each compares as equal with itself alone.
pub fn equal_with_itself_alone()
    ensures { EqualAlone }
{}
