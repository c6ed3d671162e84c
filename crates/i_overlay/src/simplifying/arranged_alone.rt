//! Paths of a subject that a builder holds alone.

ghost use Rattle.std.specs.Prelude.{◌≡◌, All, OnOk, IfErr};
ghost use Rattle.overlay_order.specs.Content.{IsContent};
ghost use Rattle.overlay_geom.specs.declared.options.ShapeType.TheVariants.{Subject};
ghost use Rattle.overlay_geom.specs.Points.{AllInRange};
ghost use Rattle.overlay_builder.specs.GivenPaths.{paths_for};
ghost use Rattle.overlay_builder.specs.Held.{nothing_held, plain_held};
ghost use Rattle.overlay_plane.specs.Carried.{edges_in};
ghost use Rattle.i_overlay.specs.Alone.{AnswersAlone, IsArrangedAlone, MayRefuseAlone};

use overlay_builder::boolean::passing_without_data;
use overlay_builder::builder_core::BuilderCore;
use overlay_builder::path::contour_kind;
use overlay_geom::error::OverlayError;
use overlay_geom::number::IntNumber;
use overlay_geom::options::ShapeType;
use overlay_geom::resource::IntShapeResource;
use overlay_geom::solver::Solver;
use overlay_order::data::CountWithData;
use std::alloc::Allocator;

/// Drops what the core holds and mends it, adds the paths of the resource as the subject's, and brings them
/// into an arrangement by the solver. Points on one line stay, or are dropped first. The points are in the
/// coordinate range.
///
/// Refusals, which leave the core failed: `NotSettled` (never with `Solver::SNAPPED`), `TooManyEdges`
/// and `Memory`.
pub(crate) fn arrange_alone<I: IntNumber, A: Allocator + Clone, R0: IntShapeResource<I>>(
    core: &mut BuilderCore<I, CountWithData<()>, A>,
    solver: Solver,
    resource: &R0,
    keeps_points: bool,
) -> Result<(), OverlayError>
    requires { All (AllInRange I.limit) (R0.paths resource.now) }
    ensures { AnswersAlone I.limit solver keeps_points (paths_for Subject (R0.paths resource.now))
        (plain_held core.new) result }
{
    core.clear();
    let arranged = add_and_arrange(core, solver, resource, keeps_points);
    core.set_failed(arranged.is_err());
    arranged
}

// Adds the paths to nothing, and brings them into an arrangement.
fn add_and_arrange<I: IntNumber, A: Allocator + Clone, R0: IntShapeResource<I>>(
    core: &mut BuilderCore<I, CountWithData<()>, A>,
    solver: Solver,
    resource: &R0,
    keeps_points: bool,
) -> Result<(), OverlayError>
    requires nothing { core.old ≡ nothing_held }
    requires points { All (AllInRange I.limit) (R0.paths resource.now) }
    ensures arranged { OnOk result (IsArrangedAlone keeps_points solver (paths_for Subject (R0.paths resource.now))
        (edges_in core.new.edges)) }
    ensures content { OnOk result (IsContent I.limit (edges_in core.new.edges)) }
    ensures err { IfErr result (MayRefuseAlone keeps_points solver (paths_for Subject (R0.paths resource.now))) }
{
    let kind = contour_kind(keeps_points);
    core.add_paths(resource, kind, passing_without_data(ShapeType::Subject))?;
    core.arrange(solver, &mut ())?;
    Ok(())
}
