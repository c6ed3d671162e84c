//! The union of two contours, by snap rounding.

ghost use Rattle.overlay_geom.specs.Points.{plain_points, AllInRange};

use i_overlay::error::OverlayError;
use i_overlay::fill_rule::FillRule;
use i_overlay::i_float::int::point::IntPoint;
use i_overlay::i_shape::int::path::PathRef;
use i_overlay::i_shape::int::shape::IntShapes;
use i_overlay::overlay_rule::OverlayRule;
use i_overlay::single::SingleIntOverlay;
use i_overlay::solver::Solver;
use std::alloc::Global;

/// Returns the shapes that two contours fill together.
pub fn union_of(
    alloc: Global,
    left: &[IntPoint<i32>],
    right: &[IntPoint<i32>],
) -> Result<IntShapes<i32, Global>, OverlayError>
    requires left { AllInRange 1073741823 (plain_points (λ z. z) left.now) }
    requires right { AllInRange 1073741823 (plain_points (λ z. z) right.now) }
{
    let (left, right) = (PathRef::new(left), PathRef::new(right));
    let (rule, fill) = (OverlayRule::Union, FillRule::NonZero);
    left.overlay_with_solver(alloc, &right, rule, fill, Solver::SNAPPED)
}
