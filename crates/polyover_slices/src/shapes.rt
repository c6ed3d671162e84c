//! The shapes into which strings slice a shape.

ghost use Rattle.std.specs.Prelude.{All, IfOk, IfErr};
ghost use Rattle.overlay_extract.specs.Results.{asked};
ghost use Rattle.overlay_geom.specs.Flat.{paths_in};
ghost use Rattle.overlay_geom.specs.Paths.{plain_shapes};
ghost use Rattle.overlay_geom.specs.Points.{AllInRange};
ghost use Rattle.overlay_geom.specs.declared.overlay_rule.OverlayRule.TheVariants.{Subject};
ghost use Rattle.overlay_string.specs.OneShot.{MayRefusePaths, shape_and_strings};
ghost use Rattle.polyover_slices.specs.Slices.{AreSlicesOfPaths};

use i_overlay::fill_rule::FillRule;
use i_overlay::overlay::IntOverlayOptions;
use i_overlay::solver::Solver;
use i_overlay::string::overlay::StringOverlay;
use i_overlay::string::rule::StringRule;
use overlay_geom::error::OverlayError;
use overlay_geom::integer::OverlayInt;
use overlay_geom::path::IntShapes;
use polyover_calls::given::BothRead;
use std::alloc::Global;

/// The shapes into which the second list, of open paths, slices what the contours of the first fill. They run in the
/// direction of the options, and have no contour below their smallest area. No other option is read.
///
/// Refusals: `NotSettled` (never with `Solver::SNAPPED`), `TooManyEdges` and `Memory`.
pub(crate) fn sliced_shapes<I: OverlayInt>(
    alloc: Global,
    read: &BothRead<I>,
    fill: FillRule,
    options: IntOverlayOptions<I::WideUInt>,
    solver: Solver,
) -> Result<IntShapes<I, Global>, OverlayError>
    requires shape_in_range { All (AllInRange I.limit)
        (paths_in I.whole read.now.first.points.items read.now.first.ranges.items) }
    requires lines_in_range { All (AllInRange I.limit)
        (paths_in I.whole read.now.second.points.items read.now.second.ranges.items) }
    ensures sliced { IfOk result (λ v. AreSlicesOfPaths solver
        (asked I.Wide.width I.WideUInt.natural fill Subject options)
        (shape_and_strings (paths_in I.whole read.now.first.points.items read.now.first.ranges.items)
        (paths_in I.whole read.now.second.points.items read.now.second.ranges.items)) (plain_shapes I.whole v.items)) }
    ensures err { IfErr result (MayRefusePaths solver
        (shape_and_strings (paths_in I.whole read.now.first.points.items read.now.first.ranges.items)
        (paths_in I.whole read.now.second.points.items read.now.second.ranges.items))) }
{
    let mut overlay = StringOverlay::from_shape_and_string(alloc, &read.first, &read.second)?;
    let view = overlay.build_graph_view_with_solver(fill, solver)?;
    match view {
        Some(view) => view.extract_shapes_custom(StringRule::Slice, options),
        None => Ok(Vec::new(alloc)),
    }
}
