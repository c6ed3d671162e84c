//! Boolean operations on two resources, in one call.

ghost use Rattle.std.specs.Prelude.{All, IfOk, IfErr};
ghost use Rattle.overlay_geom.specs.Paths.{plain_shapes};
ghost use Rattle.overlay_geom.specs.Points.{AllInRange};
ghost use Rattle.overlay_geom.specs.declared.solver.Solver.TheVariants.{Rounds};
ghost use Rattle.i_overlay.specs.OneShot.{asked_by_default, IsResultOfPaths, MayRefusePaths};
ghost use Rattle.overlay_builder.specs.GivenPaths.{subject_and_clip};

use crate::overlay::{IntOverlayOptions, Overlay};
use crate::solver::Solver;
use overlay_geom::error::OverlayError;
use overlay_geom::fill_rule::FillRule;
use overlay_geom::integer::OverlayInt;
use overlay_geom::overlay_rule::OverlayRule;
use overlay_geom::path::IntShapes;
use overlay_geom::resource::IntShapeResource;
use std::alloc::Allocator;

/// Boolean operations between two resources, each of its own type. Each path is a closed contour, and the points of
/// both are in the coordinate range. Each answer is that of `Overlay::overlay` on a new builder with the default
/// options. A call without a solver takes `Solver::ABSOLUTE`.
///
/// Refusals are `Memory`, `NotSettled` (never with `Solver::SNAPPED`) and `TooManyEdges`; nothing of the caller's is
/// changed.
pub trait SingleIntOverlay<I: OverlayInt>: IntShapeResource<I> {
    /// The shapes round the region where the overlay rule holds of what the subject, this resource,
    /// and the clip, `other`, fill under the fill rule.
    fn overlay<R1: IntShapeResource<I>, A: Allocator + Clone>(
        &self,
        alloc: A,
        other: &R1,
        overlay_rule: OverlayRule,
        fill_rule: FillRule,
    ) -> Result<IntShapes<I, A>, OverlayError>
        requires self_in_range { All (AllInRange I.limit) (Self.paths self.now) }
        requires other_in_range { All (AllInRange I.limit) (R1.paths other.now) }
        ensures result { IfOk result (λ v. IsResultOfPaths Rounds
            (asked_by_default I.Wide.width fill_rule overlay_rule)
            (subject_and_clip (Self.paths self.now) (R1.paths other.now)) (plain_shapes I.whole v.items)) }
        ensures err { IfErr result (MayRefusePaths Rounds (subject_and_clip (Self.paths self.now)
            (R1.paths other.now))) };

    /// As `overlay`, with edges split by `solver`.
    fn overlay_with_solver<R1: IntShapeResource<I>, A: Allocator + Clone>(
        &self,
        alloc: A,
        other: &R1,
        overlay_rule: OverlayRule,
        fill_rule: FillRule,
        solver: Solver,
    ) -> Result<IntShapes<I, A>, OverlayError>
        requires self_in_range { All (AllInRange I.limit) (Self.paths self.now) }
        requires other_in_range { All (AllInRange I.limit) (R1.paths other.now) }
        ensures result { IfOk result (λ v. IsResultOfPaths solver
            (asked_by_default I.Wide.width fill_rule overlay_rule)
            (subject_and_clip (Self.paths self.now) (R1.paths other.now)) (plain_shapes I.whole v.items)) }
        ensures err { IfErr result (MayRefusePaths solver (subject_and_clip (Self.paths self.now)
            (R1.paths other.now))) };
}

impl<I: OverlayInt, R0: IntShapeResource<I>> SingleIntOverlay<I> for R0 {
    fn overlay<R1: IntShapeResource<I>, A: Allocator + Clone>(
        &self,
        alloc: A,
        other: &R1,
        overlay_rule: OverlayRule,
        fill_rule: FillRule,
    ) -> Result<IntShapes<I, A>, OverlayError> {
        self.overlay_with_solver(alloc, other, overlay_rule, fill_rule, Solver::ABSOLUTE)
    }

    fn overlay_with_solver<R1: IntShapeResource<I>, A: Allocator + Clone>(
        &self,
        alloc: A,
        other: &R1,
        overlay_rule: OverlayRule,
        fill_rule: FillRule,
        solver: Solver,
    ) -> Result<IntShapes<I, A>, OverlayError> {
        let options = IntOverlayOptions::default();
        let mut overlay = Overlay::from_subj_and_clip_custom(alloc, self, other, options, solver)?;
        overlay.overlay(overlay_rule, fill_rule)
    }
}
