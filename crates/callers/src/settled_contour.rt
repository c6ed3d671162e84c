//! A contour that is added, and cut until its edges meet in ends alone.

ghost use Rattle.std.specs.Prelude.{OnOk};
ghost use Rattle.overlay_geom.specs.Points.{plain_points, AllInRange};
ghost use Rattle.overlay_geom.specs.Settled.{IsSettled};

use i_overlay::error::OverlayError;
use i_overlay::fill_rule::FillRule;
use i_overlay::i_float::int::point::IntPoint;
use i_overlay::overlay::{Overlay, ShapeType};
use std::alloc::Global;

/// Adds the contour, and leaves the builder with edges that meet in ends alone.
pub fn settle_contour(
    overlay: &mut Overlay<i32, Global>,
    contour: &[IntPoint<i32>],
) -> Result<usize, OverlayError>
    requires { AllInRange 1073741823 (plain_points (λ z. z) contour.now) }
    ensures { OnOk result (IsSettled overlay.new.edges) }
{
    overlay.add_contour(contour, ShapeType::Subject)?;
    Ok(overlay.build_separate_vectors(FillRule::NonZero)?.len())
}
