//! Builders, empty or with the paths of a subject and of a clip.

ghost use Rattle.std.specs.Prelude.{◌≡◌, [], All, false, IfOk, IfErr, IsOkUnless};
ghost use Rattle.overlay_geom.specs.Points.{AllInRange};
ghost use Rattle.overlay_builder.specs.GivenPaths.{paths_for, subject_and_clip, added_paths};
ghost use Rattle.overlay_builder.specs.PathLists.{HoldsPaths, MayRefuseBuilder};
ghost use Rattle.i_overlay.specs.Builder.{empty_builder, IsNewBuilder};

use crate::overlay::{IntOverlayOptions, Overlay, ShapeType};
use crate::solver::Solver;
use overlay_builder::builder_core::BuilderCore;
use overlay_geom::error::OverlayError;
use overlay_geom::integer::OverlayInt;
use overlay_geom::resource::IntShapeResource;
use overlay_walk::buffer::BooleanExtractionBuffer;
use std::alloc::Allocator;

impl<I: OverlayInt, A: Allocator + Clone> Overlay<I, A> {
    /// An empty builder with room for `capacity` edges, the default options and the default solver.
    /// The only refusal is `Memory`.
    pub fn new(alloc: A, capacity: usize) -> Result<Self, OverlayError>
        ensures empty { IfOk result (λ o. o.edges ≡ []) }
        ensures made { IfOk result (λ o. IsNewBuilder I.WideUInt.natural o) }
        ensures err { IsOkUnless result OverlayError.Memory }
    {
        let options = IntOverlayOptions::default();
        Overlay::new_custom(alloc, capacity, options, Solver::ABSOLUTE)
    }

    /// An empty builder with room for `capacity` edges, these options and this solver. The only
    /// refusal is `Memory`.
    pub fn new_custom(
        alloc: A,
        capacity: usize,
        options: IntOverlayOptions<I::WideUInt>,
        solver: Solver,
    ) -> Result<Self, OverlayError>
        ensures ok { IfOk result (λ o. o ≡ empty_builder options solver) }
        ensures err { IsOkUnless result OverlayError.Memory }
    {
        Ok(Overlay {
            solver,
            options,
            boolean_buffer: Some(BooleanExtractionBuffer::default(alloc.clone()?)),
            core: BuilderCore::with_capacity(alloc, capacity)?,
            viewed: None,
        })
    }

    /// A builder with the paths of `subj` as the subject and those of `clip` as the clip, each a
    /// closed contour, the default options and the default solver. The points are in the
    /// coordinate range. Refusals: `TooManyEdges` where a path, added after those before it, would
    /// bring the weight to 2^31; `Memory`.
    pub fn from_subj_and_clip<R0: IntShapeResource<I>, R1: IntShapeResource<I>>(
        alloc: A,
        subj: &R0,
        clip: &R1,
    ) -> Result<Self, OverlayError>
        requires subj_in_range { All (AllInRange I.limit) (R0.paths subj.now) }
        requires clip_in_range { All (AllInRange I.limit) (R1.paths clip.now) }
        ensures ok { IfOk result (λ o. HoldsPaths (added_paths false
            (subject_and_clip (R0.paths subj.now) (R1.paths clip.now))) o.edges) }
        ensures made { IfOk result (λ o. IsNewBuilder I.WideUInt.natural o) }
        ensures err { IfErr result (MayRefuseBuilder (added_paths false
            (subject_and_clip (R0.paths subj.now) (R1.paths clip.now)))) }
    {
        let options = IntOverlayOptions::default();
        Overlay::from_subj_and_clip_custom(alloc, subj, clip, options, Solver::ABSOLUTE)
    }

    /// A builder with the paths of `subj` as the subject and those of `clip` as the clip, each a
    /// closed contour, these options and this solver. The points are in the coordinate range.
    /// Refusals: `TooManyEdges` where a path, added after those before it, would bring the weight to
    /// 2^31; `Memory`.
    pub fn from_subj_and_clip_custom<R0: IntShapeResource<I>, R1: IntShapeResource<I>>(
        alloc: A,
        subj: &R0,
        clip: &R1,
        options: IntOverlayOptions<I::WideUInt>,
        solver: Solver,
    ) -> Result<Self, OverlayError>
        requires subj_in_range { All (AllInRange I.limit) (R0.paths subj.now) }
        requires clip_in_range { All (AllInRange I.limit) (R1.paths clip.now) }
        ensures ok { IfOk result (λ o. HoldsPaths (added_paths options.preserve_input_collinear
            (subject_and_clip (R0.paths subj.now) (R1.paths clip.now))) o.edges) }
        ensures made { IfOk result (λ o. o ≡ record (empty_builder options solver) { edges = o.edges }) }
        ensures err { IfErr result (MayRefuseBuilder (added_paths options.preserve_input_collinear
            (subject_and_clip (R0.paths subj.now) (R1.paths clip.now)))) }
    {
        let mut overlay = Overlay::new_custom(alloc, 0, options, solver)?;
        overlay.reinit_with_subj_and_clip(subj, clip)?;
        Ok(overlay)
    }

    /// A builder with the paths of `subj` as the subject, each a closed contour, the default options
    /// and the default solver. The points are in the coordinate range. Refusals: `TooManyEdges`
    /// where a path, added after those before it, would bring the weight to 2^31; `Memory`.
    pub fn from_subj<R0: IntShapeResource<I>>(alloc: A, subj: &R0) -> Result<Self, OverlayError>
        requires { All (AllInRange I.limit) (R0.paths subj.now) }
        ensures ok { IfOk result (λ o. HoldsPaths (added_paths false
            (paths_for ShapeType.Subject (R0.paths subj.now))) o.edges) }
        ensures made { IfOk result (λ o. IsNewBuilder I.WideUInt.natural o) }
        ensures err { IfErr result (MayRefuseBuilder (added_paths false
            (paths_for ShapeType.Subject (R0.paths subj.now)))) }
    {
        Overlay::from_subj_custom(alloc, subj, IntOverlayOptions::default(), Solver::ABSOLUTE)
    }

    /// A builder with the paths of `subj` as the subject, each a closed contour, these options and
    /// this solver. The points are in the coordinate range. Refusals: `TooManyEdges` where a
    /// path, added after those before it, would bring the weight to 2^31; `Memory`.
    pub fn from_subj_custom<R0: IntShapeResource<I>>(
        alloc: A,
        subj: &R0,
        options: IntOverlayOptions<I::WideUInt>,
        solver: Solver,
    ) -> Result<Self, OverlayError>
        requires { All (AllInRange I.limit) (R0.paths subj.now) }
        ensures ok { IfOk result (λ o. HoldsPaths (added_paths options.preserve_input_collinear
            (paths_for ShapeType.Subject (R0.paths subj.now))) o.edges) }
        ensures made { IfOk result (λ o. o ≡ record (empty_builder options solver) { edges = o.edges }) }
        ensures err { IfErr result (MayRefuseBuilder (added_paths options.preserve_input_collinear
            (paths_for ShapeType.Subject (R0.paths subj.now)))) }
    {
        let mut overlay = Overlay::new_custom(alloc, 0, options, solver)?;
        overlay.reinit_with_subj(subj)?;
        Ok(overlay)
    }
}
