//! Edges that are not vertical.

ghost use Rattle.std.specs.Prelude.{◌<ℤ◌};
ghost use Rattle.overlay_geom.specs.Points.{plain_point, InRange};

use overlay_geom::number::IntNumber;
use overlay_geom::point::IntPoint;

/// An edge that is not vertical, from its left to its right end.
#[derive(Drop)]
pub(crate) struct WideEdge<I: IntNumber> {
    /// Its left end.
    pub a: IntPoint<I>,
    /// Its right end.
    pub b: IntPoint<I>,
    pub ghost a_in_range: { InRange I.limit (plain_point I.whole a) },
    pub ghost b_in_range: { InRange I.limit (plain_point I.whole b) },
    pub ghost wide: { I.whole a.x <ℤ I.whole b.x },
}
