//! A shape that is cut by a line.

ghost use Rattle.std.specs.Prelude.{◌∷◌, [], All, IfOk};
ghost use Rattle.overlay_geom.specs.Paths.{paths_of_shape, plain_shapes};
ghost use Rattle.overlay_geom.specs.Points.{plain_points, AllInRange};
ghost use Rattle.overlay_geom.specs.declared.solver.Solver.TheVariants.{Rounds};
ghost use Rattle.overlay_string.specs.OneShot.{shape_and_strings};
ghost use Rattle.overlay_string.specs.StringSlices.{AreSlicedOfPaths};

use overlay_geom::error::OverlayError;
use overlay_geom::fill_rule::FillRule;
use overlay_geom::integer::OverlayInt;
use overlay_geom::path::{IntLine, IntShape, IntShapes};
use overlay_string::slice::IntSlice;
use std::alloc::Allocator;

/// The shapes into which a line cuts the shape.
pub fn cut_by_line<I: OverlayInt, A: Allocator + Clone>(
    alloc: A,
    shape: &IntShape<I, A>,
    line: IntLine<I>,
) -> Result<IntShapes<I, A>, OverlayError>
    requires shape { All (AllInRange I.limit) (paths_of_shape I.whole shape.now.items) }
    requires line { AllInRange I.limit (plain_points I.whole line) }
    ensures { IfOk result (λ v. AreSlicedOfPaths Rounds I.Wide.width FillRule.NonZero
        (shape_and_strings (paths_of_shape I.whole shape.now.items) (plain_points I.whole line ∷ []))
        (plain_shapes I.whole v.items)) }
{
    shape.slice_by_line(alloc, line, FillRule::NonZero)
}
