//! Builders for predicates, empty or with the paths of a subject and of a clip.

ghost use Rattle.std.specs.Prelude.{◌≡◌, All, false, IfOk, IfErr, IsOkUnless};
ghost use Rattle.overlay_geom.specs.Points.{AllInRange};
ghost use Rattle.overlay_geom.specs.declared.solver.Solver.TheVariants.{Rounds};
ghost use Rattle.overlay_builder.specs.GivenPaths.{subject_and_clip, added_paths};
ghost use Rattle.overlay_builder.specs.PathLists.{HoldsPaths, MayRefuseBuilder};
ghost use Rattle.overlay_relate.specs.PredicateBuilder.{empty_builder};

use crate::predicate_overlay::PredicateOverlay;
use overlay_builder::builder_core::BuilderCore;
use overlay_builder::solver::Solver;
use overlay_geom::error::OverlayError;
use overlay_geom::fill_rule::FillRule;
use overlay_geom::integer::OverlayInt;
use overlay_geom::resource::IntShapeResource;
use std::alloc::{AllocError, Allocator};

impl<I: OverlayInt, A: Allocator + Clone> PredicateOverlay<I, A> {
    /// Returns an empty builder with room for `capacity` edges, the rule EvenOdd and the default solver
    /// (`Solver::ABSOLUTE`). The only refusal is `Memory`.
    pub fn new(alloc: A, capacity: usize) -> Result<Self, OverlayError>
        ensures ok { IfOk result (λ o. o ≡ empty_builder FillRule.EvenOdd Rounds) }
        ensures err { IsOkUnless result OverlayError.Memory }
    {
        Ok(PredicateOverlay::with_settings(alloc, capacity, FillRule::EvenOdd, Solver::ABSOLUTE)?)
    }

    /// A builder with the paths of `subj` as the subject and those of `clip` as the clip, each a
    /// closed contour, the rule EvenOdd and the default solver. The points are in the coordinate
    /// range. Refusals: `TooManyEdges` where a path, added after those before it, would bring the
    /// weight to 2^31; `Memory`.
    pub fn from_subj_and_clip<R0: IntShapeResource<I>, R1: IntShapeResource<I>>(
        alloc: A,
        subj: &R0,
        clip: &R1,
    ) -> Result<Self, OverlayError>
        requires subj_in_range { All (AllInRange I.limit) (R0.paths subj.now) }
        requires clip_in_range { All (AllInRange I.limit) (R1.paths clip.now) }
        ensures ok { IfOk result (λ o. HoldsPaths (added_paths false
            (subject_and_clip (R0.paths subj.now) (R1.paths clip.now))) o.edges) }
        ensures made { IfOk result (λ o. o ≡ record (empty_builder FillRule.EvenOdd Rounds) { edges = o.edges }) }
        ensures err { IfErr result (MayRefuseBuilder (added_paths false
            (subject_and_clip (R0.paths subj.now) (R1.paths clip.now)))) }
    {
        let fill_rule = FillRule::EvenOdd;
        PredicateOverlay::from_subj_and_clip_custom(alloc, subj, clip, fill_rule, Solver::ABSOLUTE)
    }

    /// A builder with the paths of `subj` as the subject and those of `clip` as the clip, each a
    /// closed contour, this rule and this solver. The points are in the coordinate range. Refusals:
    /// `TooManyEdges` where a path, added after those before it, would bring the weight to 2^31;
    /// `Memory`.
    pub fn from_subj_and_clip_custom<R0: IntShapeResource<I>, R1: IntShapeResource<I>>(
        alloc: A,
        subj: &R0,
        clip: &R1,
        fill_rule: FillRule,
        solver: Solver,
    ) -> Result<Self, OverlayError>
        requires subj_in_range { All (AllInRange I.limit) (R0.paths subj.now) }
        requires clip_in_range { All (AllInRange I.limit) (R1.paths clip.now) }
        ensures ok { IfOk result (λ o. HoldsPaths (added_paths false
            (subject_and_clip (R0.paths subj.now) (R1.paths clip.now))) o.edges) }
        ensures made { IfOk result (λ o. o ≡ record (empty_builder fill_rule solver) { edges = o.edges }) }
        ensures err { IfErr result (MayRefuseBuilder (added_paths false
            (subject_and_clip (R0.paths subj.now) (R1.paths clip.now)))) }
    {
        let mut overlay = PredicateOverlay::with_settings(alloc, 0, fill_rule, solver)?;
        overlay.reinit_with_subj_and_clip(subj, clip)?;
        Ok(overlay)
    }

    /// Returns an empty builder with room for `capacity` edges, and these settings.
    pub(crate) fn with_settings(
        alloc: A,
        capacity: usize,
        fill_rule: FillRule,
        solver: Solver,
    ) -> Result<Self, AllocError>
        ensures ok { IfOk result (λ o. o ≡ empty_builder fill_rule solver) }
    {
        Ok(PredicateOverlay {
            solver,
            fill_rule,
            core: BuilderCore::with_capacity(alloc, capacity)?,
            kept: None,
        })
    }
}
