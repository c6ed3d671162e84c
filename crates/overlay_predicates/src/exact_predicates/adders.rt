//! Adding closed contours to a builder for exact predicates, one by one or all paths of a resource.

ghost use Rattle.std.specs.Prelude.{◌≡◌, false, List, All};
ghost use Rattle.std.specs.Iterator.{Drains, IsFinite};
ghost use Rattle.overlay_order.specs.Content.{edge_for};
ghost use Rattle.overlay_geom.specs.Edges.{AddsContour, weight};
ghost use Rattle.overlay_geom.specs.Points.{plain_points, AllInRange};
ghost use Rattle.overlay_builder.specs.BuilderCalls.{AddsContourAsAsked, AddsGivenAsAsked};
ghost use Rattle.overlay_builder.specs.GivenPaths.{paths_for, subject_and_clip, ContourWeighsTooMuch};
ghost use Rattle.overlay_predicates.specs.ExactBuilder.{cleared, held_by, ExactBuilderAdds};

use crate::exact_predicates::{ExactPredicates, ShapeType};
use overlay_builder::boolean::passing;
use overlay_builder::path::PathKind;
use overlay_builder::points::gathered;
use overlay_exact::exact_int::ExactInt;
use overlay_geom::error::OverlayError;
use overlay_geom::point::IntPoint;
use overlay_geom::resource::IntShapeResource;
use std::alloc::Allocator;

impl<I: ExactInt, A: Allocator + Clone> ExactPredicates<I, A> {
    /// Adds the steps of a contour: from each point to the next, and from the last to the first. A step between equal
    /// points is none. Points on one line with their two neighbours are dropped first. The points are in the
    /// coordinate range.
    ///
    /// Refusals, which leave the builder as it was: `TooManyEdges` where the weight would come to 2^31, and `Memory`.
    pub fn add_contour(
        &mut self,
        contour: &[IntPoint<I>],
        shape_type: ShapeType,
    ) -> Result<(), OverlayError>
        requires { AllInRange I.limit (plain_points I.whole contour.now) }
        ensures added { AddsContourAsAsked false shape_type (plain_points I.whole contour.now)
            (held_by self.old) (held_by self.new) result }
        ensures kept { self.new ≡ record self.old { edges = self.new.edges } }
    {
        let kind = PathKind::Thinned;
        self.core.add_path(contour, kind, passing(shape_type))?;
        Ok(())
    }

    /// Adds one contour, as `add_contour` does, whose points the iterator gives. It ends, and the points are in the
    /// coordinate range. Refusals are those of `add_contour`.
    pub fn add_path_iter<P: Iterator<Item = IntPoint<I>> + Drop>(
        &mut self,
        iter: P,
        shape_type: ShapeType,
    ) -> Result<(), OverlayError>
        requires can { P.can_next iter }
        requires ends { IsFinite (P.remaining iter) }
        requires in_range { (ps : List (IntPoint I)) → Drains P.next_gives iter ps
            → AllInRange I.limit (plain_points I.whole ps) }
        ensures added { AddsGivenAsAsked weight P.next_gives iter
            (λ ps. AddsContour false (edge_for shape_type) (plain_points I.whole ps))
            (λ ps. ContourWeighsTooMuch false shape_type (plain_points I.whole ps))
            (held_by self.old) (held_by self.new) result }
        ensures kept { self.new ≡ record self.old { edges = self.new.edges } }
    {
        let alloc = self.core.content().allocator().clone()?;
        let points = gathered(alloc, iter)?;
        self.add_contour(&points, shape_type)
    }

    /// Adds all paths of the resource in order, each as `add_contour` does. The points are in the coordinate range.
    ///
    /// Refusals: `TooManyEdges` at a path that would bring the weight to 2^31, and `Memory` at some path. Exactly the
    /// paths before that path are added then.
    pub fn add_source<R0: IntShapeResource<I>>(
        &mut self,
        resource: &R0,
        shape_type: ShapeType,
    ) -> Result<(), OverlayError>
        requires { All (AllInRange I.limit) (R0.paths resource.now) }
        ensures { ExactBuilderAdds (paths_for shape_type (R0.paths resource.now)) self.old self.new result }
    {
        self.core
            .add_paths(resource, PathKind::Thinned, passing(shape_type))
    }

    /// Drops the edges; `fill_rule` stays. It takes no memory.
    pub fn clear(&mut self)
        ensures { self.new ≡ cleared self.old }
    {
        self.core.clear();
    }

    /// Drops the edges, and then adds the paths of `subj` as the subject and those of `clip` as the clip. `fill_rule`
    /// stays. The points are in the coordinate range.
    ///
    /// Refusals are `TooManyEdges` and `Memory`, as those of `add_source`: exactly the paths before the refused path
    /// are added then.
    pub fn reinit_with_subj_and_clip<R0: IntShapeResource<I>, R1: IntShapeResource<I>>(
        &mut self,
        subj: &R0,
        clip: &R1,
    ) -> Result<(), OverlayError>
        requires subj_in_range { All (AllInRange I.limit) (R0.paths subj.now) }
        requires clip_in_range { All (AllInRange I.limit) (R1.paths clip.now) }
        ensures { ExactBuilderAdds (subject_and_clip (R0.paths subj.now) (R1.paths clip.now))
            (cleared self.old) self.new result }
    {
        self.reinit_with_subj(subj)?;
        self.add_source(clip, ShapeType::Clip)
    }

    // Drops the edges, and then adds the paths of `subj` as the subject.
    fn reinit_with_subj<R0: IntShapeResource<I>>(&mut self, subj: &R0) -> Result<(), OverlayError>
        requires { All (AllInRange I.limit) (R0.paths subj.now) }
        ensures { ExactBuilderAdds (paths_for ShapeType.Subject (R0.paths subj.now))
            (cleared self.old) self.new result }
    {
        self.clear();
        self.add_source(subj, ShapeType::Subject)
    }
}
