//! Builders for exact predicates, empty or with the paths of a subject and of a clip.

ghost use Rattle.std.specs.Prelude.{◌≡◌, All, false, IfOk, IfErr, IsOkUnless};
ghost use Rattle.overlay_geom.specs.Points.{AllInRange};
ghost use Rattle.overlay_builder.specs.GivenPaths.{subject_and_clip, added_paths};
ghost use Rattle.overlay_builder.specs.PathLists.{HoldsPaths, MayRefuseBuilder};
ghost use Rattle.overlay_predicates.specs.ExactBuilder.{empty_builder};

use crate::exact_predicates::ExactPredicates;
use overlay_builder::builder_core::BuilderCore;
use overlay_exact::exact_int::ExactInt;
use overlay_geom::error::OverlayError;
use overlay_geom::fill_rule::FillRule;
use overlay_geom::resource::IntShapeResource;
use std::alloc::{AllocError, Allocator};

impl<I: ExactInt, A: Allocator + Clone> ExactPredicates<I, A> {
    /// Returns an empty builder with room for `capacity` edges and the rule EvenOdd. The only refusal is `Memory`.
    pub fn new(alloc: A, capacity: usize) -> Result<Self, OverlayError>
        ensures ok { IfOk result (λ o. o ≡ empty_builder FillRule.EvenOdd) }
        ensures err { IsOkUnless result OverlayError.Memory }
    {
        Ok(ExactPredicates::with_rule(alloc, capacity, FillRule::EvenOdd)?)
    }

    /// Returns a builder with the paths of `subj` as the subject and those of `clip` as the clip, each a closed
    /// contour, and the rule EvenOdd. The points are in the coordinate range. Refusals are those of
    /// `from_subj_and_clip_custom`.
    pub fn from_subj_and_clip<R0: IntShapeResource<I>, R1: IntShapeResource<I>>(
        alloc: A,
        subj: &R0,
        clip: &R1,
    ) -> Result<Self, OverlayError>
        requires subj_in_range { All (AllInRange I.limit) (R0.paths subj.now) }
        requires clip_in_range { All (AllInRange I.limit) (R1.paths clip.now) }
        ensures ok { IfOk result (λ o. HoldsPaths (added_paths false
            (subject_and_clip (R0.paths subj.now) (R1.paths clip.now))) o.edges) }
        ensures made { IfOk result (λ o. o ≡ record (empty_builder FillRule.EvenOdd) { edges = o.edges }) }
        ensures err { IfErr result (MayRefuseBuilder (added_paths false
            (subject_and_clip (R0.paths subj.now) (R1.paths clip.now)))) }
    {
        ExactPredicates::from_subj_and_clip_custom(alloc, subj, clip, FillRule::EvenOdd)
    }

    /// Returns a builder with the paths of `subj` as the subject and those of `clip` as the clip, each a closed
    /// contour, and this rule. The points are in the coordinate range. Refusals: `TooManyEdges` where a path, added
    /// after those before it, would bring the weight to 2^31; `Memory`.
    pub fn from_subj_and_clip_custom<R0: IntShapeResource<I>, R1: IntShapeResource<I>>(
        alloc: A,
        subj: &R0,
        clip: &R1,
        fill_rule: FillRule,
    ) -> Result<Self, OverlayError>
        requires subj_in_range { All (AllInRange I.limit) (R0.paths subj.now) }
        requires clip_in_range { All (AllInRange I.limit) (R1.paths clip.now) }
        ensures ok { IfOk result (λ o. HoldsPaths (added_paths false
            (subject_and_clip (R0.paths subj.now) (R1.paths clip.now))) o.edges) }
        ensures made { IfOk result (λ o. o ≡ record (empty_builder fill_rule) { edges = o.edges }) }
        ensures err { IfErr result (MayRefuseBuilder (added_paths false
            (subject_and_clip (R0.paths subj.now) (R1.paths clip.now)))) }
    {
        let mut predicates = ExactPredicates::with_rule(alloc, 0, fill_rule)?;
        predicates.reinit_with_subj_and_clip(subj, clip)?;
        Ok(predicates)
    }

    // Returns an empty builder with room for `capacity` edges and this rule.
    fn with_rule(alloc: A, capacity: usize, fill_rule: FillRule) -> Result<Self, AllocError>
        ensures ok { IfOk result (λ o. o ≡ empty_builder fill_rule) }
    {
        Ok(ExactPredicates {
            fill_rule,
            core: BuilderCore::with_capacity(alloc, capacity)?,
        })
    }
}
