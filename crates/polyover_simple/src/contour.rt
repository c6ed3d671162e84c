//! What one contour is simplified to, and whether it stays as it is given.

ghost use Rattle.std.specs.Prelude.{◌≡◌, ◌∷◌, [], All, IfOk, IfErr};
ghost use Rattle.overlay_builder.specs.GivenPaths.{paths_for};
ghost use Rattle.overlay_extract.specs.Results.{asked};
ghost use Rattle.overlay_geom.specs.Paths.{plain_shapes};
ghost use Rattle.overlay_geom.specs.Points.{AllInRange, plain_points};
ghost use Rattle.overlay_geom.specs.declared.options.ShapeType.TheVariants.{Subject};
ghost use Rattle.overlay_geom.specs.declared.overlay_rule.OverlayRule.TheVariants as rule;
ghost use Rattle.i_overlay.specs.Alone.{MayRefuseAlone};
ghost use Rattle.polyover_simple.specs.Simplified.{AreSimplifiedSo};

use i_overlay::fill_rule::FillRule;
use i_overlay::overlay::{IntOverlayOptions, Overlay};
use i_overlay::solver::Solver;
use overlay_geom::error::OverlayError;
use overlay_geom::integer::OverlayInt;
use overlay_geom::path::IntShapes;
use overlay_geom::point::IntPoint;
use overlay_geom::resource::IntShapeResource;
use std::alloc::{AllocError, Global};

/// Shapes to which paths are simplified, and whether these stay as they are given.
#[derive(Drop)]
pub(crate) struct Simplified<I> {
    pub(crate) shapes: IntShapes<I, Global>,
    pub(crate) as_given: bool,
}

/// What the paths are simplified to: one path whatever the smallest area is, and several as by an overlay.
///
/// Refusals: `NotSettled` (never with `Solver::SNAPPED`), `TooManyEdges` and `Memory`.
pub(crate) fn simplified_paths<I: OverlayInt, R0: IntShapeResource<I>>(
    alloc: Global,
    paths: &R0,
    fill: FillRule,
    options: IntOverlayOptions<I::WideUInt>,
    solver: Solver,
) -> Result<Simplified<I>, OverlayError>
    requires { All (AllInRange I.limit) (R0.paths paths.now) }
    ensures simplified { IfOk result (λ s. AreSimplifiedSo solver
        (asked I.Wide.width I.WideUInt.natural fill rule.Subject options) options.preserve_input_collinear
        (R0.paths paths.now) (plain_shapes I.whole s.shapes.items) s.as_given) }
    ensures err { IfErr result
        (MayRefuseAlone options.preserve_input_collinear solver (paths_for Subject (R0.paths paths.now))) }
{
    let mut overlay = Overlay::new_custom(alloc, 0, options, solver)?;
    if paths.path_count() == 1 {
        return simplified_contour(alloc, &mut overlay, paths.path(0), fill);
    }
    let shapes = overlay.simplify_source(paths, fill)?;
    Ok(Simplified {
        shapes,
        as_given: false,
    })
}

// What the contour is simplified to, by a new builder.
fn simplified_contour<I: OverlayInt>(
    alloc: Global,
    overlay: &mut Overlay<I, Global>,
    contour: &[IntPoint<I>],
    fill: FillRule,
) -> Result<Simplified<I>, OverlayError>
    requires { AllInRange I.limit (plain_points I.whole contour.now) }
    ensures simplified { IfOk result (λ s. AreSimplifiedSo overlay.old.solver
        (asked I.Wide.width I.WideUInt.natural fill rule.Subject overlay.old.options)
        overlay.old.options.preserve_input_collinear (plain_points I.whole contour.now ∷ [])
        (plain_shapes I.whole s.shapes.items) s.as_given) }
    ensures err { IfErr result (MayRefuseAlone overlay.old.options.preserve_input_collinear overlay.old.solver
        (paths_for Subject (plain_points I.whole contour.now ∷ []))) }
{
    match overlay.simplify_contour(contour, fill)? {
        Some(shapes) => Ok(Simplified {
            shapes,
            as_given: false,
        }),
        None => Ok(Simplified {
            shapes: shape_of(alloc, contour)?,
            as_given: true,
        }),
    }
}

// The shape that has this contour alone.
fn shape_of<I: OverlayInt>(
    alloc: Global,
    contour: &[IntPoint<I>],
) -> Result<IntShapes<I, Global>, AllocError>
    ensures { IfOk result (λ v. plain_shapes I.whole v.items ≡ (plain_points I.whole contour.now ∷ []) ∷ []) }
{
    let mut points = Vec::with_capacity(alloc, contour.len())?;
    points.extend_from_slice(contour)?;
    let mut shape = Vec::new(alloc);
    shape.push(points)?;
    let mut shapes = Vec::new(alloc);
    shapes.push(shape)?;
    Ok(shapes)
}
