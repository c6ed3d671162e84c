//! The area of a triangle.

ghost use Rattle.overlay_geom.specs.Numbers.{Within};
ghost use Rattle.overlay_geom.specs.Points.{plain_point, InRange};

use overlay_geom::integer::OverlayInt;
use overlay_geom::point::IntPoint;

/// Twice the signed area of the triangle p, q, r.
pub fn double_area<I: OverlayInt>(p: IntPoint<I>, q: IntPoint<I>, r: IntPoint<I>) -> I::Wide
    requires p { InRange I.limit (plain_point I.whole p) }
    requires q { InRange I.limit (plain_point I.whole q) }
    requires r { InRange I.limit (plain_point I.whole r) }
    ensures { Within I.Wide.limit (I.Wide.whole result) }
{
    (q - p).cross_product(r - p)
}
