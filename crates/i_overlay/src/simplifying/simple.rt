//! Whether a contour is simple as it was added, and its outcome.

ghost use Rattle.std.specs.Prelude.{◌≡◌, ◌≢◌, ◌↔◌, [], ◌∷◌, IsTrue, IfOk, OnOk, IfErr};
ghost use Rattle.overlay_order.specs.Content.{IsContent};
ghost use Rattle.overlay_geom.specs.declared.options.ShapeType.TheVariants.{Subject};
ghost use Rattle.overlay_geom.specs.Points.{plain_points, AllInRange};
ghost use Rattle.overlay_builder.specs.GivenPaths.{paths_for};
ghost use Rattle.overlay_builder.specs.Held.{nothing_held, plain_held};
ghost use Rattle.overlay_plane.specs.Carried.{edges_in};
ghost use Rattle.overlay_plane.specs.Groups.{HasEachPointOnce};
ghost use Rattle.i_overlay.specs.Alone.{AnswersAlone, IsArrangedAlone, MayRefuseAlone};
ghost use Rattle.i_overlay.specs.Outcome.{IsOutcome};

use crate::simplifying::direction::direction_of;
use crate::simplifying::outcome::{Outcome, outcome_of};
use overlay_builder::boolean::passing_without_data;
use overlay_builder::builder_core::BuilderCore;
use overlay_builder::path::contour_kind;
use overlay_geom::error::OverlayError;
use overlay_geom::fill_rule::FillRule;
use overlay_geom::number::IntNumber;
use overlay_geom::options::{ContourDirection, ShapeType};
use overlay_geom::point::IntPoint;
use overlay_geom::solver::Solver;
use overlay_order::data::CountWithData;
use overlay_walk::points_once::has_each_point_once;
use std::alloc::{AllocError, Allocator};

/// How a contour is simplified.
#[derive(Clone, Copy)]
pub struct Simplifying {
    /// How its edges are split.
    pub solver: Solver,
    /// Whether its points on one line stay, or are dropped first.
    pub keeps_points: bool,
    /// What it fills.
    pub fill_rule: FillRule,
    /// The direction in which outlines run.
    pub output_direction: ContourDirection,
}

/// Drops what the core holds and mends it, adds the contour as the subject's, and brings it into an arrangement by the
/// solver. The answer tells what becomes of the contour where it is simplified. The points are in the coordinate range.
///
/// It is simple where no point of it was left out in adding, none of its edges was cut, no point is visited
/// twice, and some edge is left: whether it is does not depend on the solver.
///
/// Refusals, which leave the core failed: `NotSettled` (never with `Solver::SNAPPED`), `TooManyEdges`
/// and `Memory`.
pub fn outcome_of_contour<I: IntNumber, A: Allocator + Clone>(
    core: &mut BuilderCore<I, CountWithData<()>, A>,
    contour: &[IntPoint<I>],
    asked: Simplifying,
) -> Result<Outcome, OverlayError>
    requires { AllInRange I.limit (plain_points I.whole contour.now) }
    ensures alone { AnswersAlone I.limit asked.solver asked.keeps_points
        (paths_for Subject (plain_points I.whole contour.now ∷ [])) (plain_held core.new) result }
    ensures outcome { IfOk result (IsOutcome asked.keeps_points asked.fill_rule asked.output_direction
        (plain_points I.whole contour.now) (edges_in core.new.edges)) }
{
    core.clear();
    let outcome = add_and_test(core, contour, asked);
    core.set_failed(outcome.is_err());
    outcome
}

// Adds the contour to nothing, brings it into an arrangement, and tests it.
fn add_and_test<I: IntNumber, A: Allocator + Clone>(
    core: &mut BuilderCore<I, CountWithData<()>, A>,
    contour: &[IntPoint<I>],
    asked: Simplifying,
) -> Result<Outcome, OverlayError>
    requires nothing { core.old ≡ nothing_held }
    requires points { AllInRange I.limit (plain_points I.whole contour.now) }
    ensures arranged { OnOk result (IsArrangedAlone asked.keeps_points asked.solver
        (paths_for Subject (plain_points I.whole contour.now ∷ [])) (edges_in core.new.edges)) }
    ensures content { OnOk result (IsContent I.limit (edges_in core.new.edges)) }
    ensures outcome { IfOk result (IsOutcome asked.keeps_points asked.fill_rule asked.output_direction
        (plain_points I.whole contour.now) (edges_in core.new.edges)) }
    ensures err { IfErr result (MayRefuseAlone asked.keeps_points asked.solver
        (paths_for Subject (plain_points I.whole contour.now ∷ []))) }
{
    let kind = contour_kind(asked.keeps_points);
    let passing = passing_without_data(ShapeType::Subject);
    let leaves_out = core.add_path(contour, kind, passing)?;
    let is_cut = core.arrange(asked.solver, &mut ())?;
    let is_whole = !leaves_out && !is_cut;
    if is_whole && visits_each_once(core, contour)? {
        let direction = direction_of(contour);
        return Ok(outcome_of(asked.fill_rule, asked.output_direction, direction));
    }
    Ok(Outcome::NotSimple)
}

// Whether some edge is held, and no point stands twice in the contour.
fn visits_each_once<I: IntNumber, A: Allocator + Clone>(
    core: &BuilderCore<I, CountWithData<()>, A>,
    contour: &[IntPoint<I>],
) -> Result<bool, AllocError>
    ensures ok { IfOk result (λ b. IsTrue b
        ↔ ((edges_in core.now.edges ≢ []) × HasEachPointOnce (plain_points I.whole contour.now))) }
{
    if core.content().len() == 0 {
        return Ok(false);
    }
    has_each_point_once(core.content().allocator().clone()?, contour)
}
