//! Edges with numbers.

ghost use Rattle.std.specs.Prelude.{◌≡◌, true};
ghost use Rattle.overlay_geom.specs.Plane.{point_lt};
ghost use Rattle.overlay_geom.specs.Points.{plain_point, InRange};

use overlay_geom::number::IntNumber;
use overlay_geom::point::IntPoint;

/// An edge, from its smaller to its larger end, with the number of its walk: the index of this walk.
#[derive(Drop)]
pub struct NumberedEdge<I: IntNumber> {
    /// The smaller end.
    pub a: IntPoint<I>,
    /// The larger end.
    pub b: IntPoint<I>,
    /// The number.
    pub number: usize,
    pub ghost a_in_range: { InRange I.limit (plain_point I.whole a) },
    pub ghost b_in_range: { InRange I.limit (plain_point I.whole b) },
    pub ghost forward: { point_lt (plain_point I.whole a) (plain_point I.whole b) ≡ true },
}
