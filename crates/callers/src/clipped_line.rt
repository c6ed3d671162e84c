//! A line that is clipped by a shape.

ghost use Rattle.std.specs.Prelude.{◌∷◌, [], All, IfOk};
ghost use Rattle.overlay_geom.specs.Paths.{paths_of_shape};
ghost use Rattle.overlay_geom.specs.Points.{plain_points, AllInRange};
ghost use Rattle.overlay_geom.specs.declared.solver.Solver.TheVariants.{Rounds};
ghost use Rattle.overlay_string.specs.OneShot.{shape_and_strings, AreClippedOfPaths};

use overlay_geom::error::OverlayError;
use overlay_geom::fill_rule::FillRule;
use overlay_geom::integer::OverlayInt;
use overlay_geom::path::{IntLine, IntPath, IntShape};
use overlay_string::clip::IntClip;
use overlay_string::clip_rule::ClipRule;
use std::alloc::Allocator;

/// The parts of a line that lie inside the shape, or as the rule says.
pub fn parts_of_line<I: OverlayInt, A: Allocator + Clone>(
    alloc: A,
    shape: &IntShape<I, A>,
    line: IntLine<I>,
    clip_rule: ClipRule,
) -> Result<Vec<IntPath<I, A>, A>, OverlayError>
    requires shape { All (AllInRange I.limit) (paths_of_shape I.whole shape.now.items) }
    requires line { AllInRange I.limit (plain_points I.whole line) }
    ensures { IfOk result (λ v. AreClippedOfPaths Rounds FillRule.NonZero clip_rule
        (shape_and_strings (paths_of_shape I.whole shape.now.items) (plain_points I.whole line ∷ []))
        (paths_of_shape I.whole v.items)) }
{
    shape.clip_line(alloc, line, FillRule::NonZero, clip_rule)
}
