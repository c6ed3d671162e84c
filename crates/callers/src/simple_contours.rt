//! The shapes of a simple contour.

ghost use Rattle.overlay_geom.specs.Points.{plain_points, AllInRange};

use i_overlay::simplifying::outcome::Outcome;
use i_overlay::simplifying::shapes::shapes_left;
use i_overlay::simplifying::simple::{Simplifying, outcome_of_contour};
use overlay_builder::builder_core::BuilderCore;
use overlay_geom::error::OverlayError;
use overlay_geom::fill_rule::FillRule;
use overlay_geom::options::ContourDirection;
use overlay_geom::path::IntShapes;
use overlay_geom::point::IntPoint;
use overlay_geom::solver::Solver;
use overlay_order::data::CountWithData;
use std::alloc::Global;

/// The shapes of a contour that is simple; none of one that would have to be cut.
pub fn shapes_if_simple(
    alloc: Global,
    core: &mut BuilderCore<i32, CountWithData<()>, Global>,
    contour: &[IntPoint<i32>],
) -> Result<IntShapes<i32, Global>, OverlayError>
    requires { AllInRange 1073741823 (plain_points (λ z. z) contour.now) }
{
    let asked = Simplifying {
        solver: Solver::ABSOLUTE,
        keeps_points: false,
        fill_rule: FillRule::NonZero,
        output_direction: ContourDirection::CounterClockwise,
    };
    let outcome = outcome_of_contour(core, contour, asked)?;
    Ok(shapes_left(alloc, contour, outcome)?)
}
