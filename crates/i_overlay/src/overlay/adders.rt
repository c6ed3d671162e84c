//! Adding closed contours to a builder, one by one or all paths of a resource.

ghost use Rattle.std.specs.Prelude.{◌≡◌, List, All};
ghost use Rattle.std.specs.Iterator.{Drains, IsFinite};
ghost use Rattle.overlay_order.specs.Content.{edge_for};
ghost use Rattle.overlay_geom.specs.Edges.{AddsContour, weight};
ghost use Rattle.overlay_geom.specs.Points.{plain_points, AllInRange};
ghost use Rattle.overlay_builder.specs.BuilderCalls.{AddsContourAsAsked, AddsGivenAsAsked};
ghost use Rattle.i_overlay.specs.Adding.{BuilderAdds};
ghost use Rattle.i_overlay.specs.Builder.{cleared, held_by};
ghost use Rattle.overlay_builder.specs.GivenPaths.{paths_for, subject_and_clip, ContourWeighsTooMuch};

use crate::overlay::{Overlay, ShapeType};
use overlay_builder::boolean::passing_without_data;
use overlay_builder::path::contour_kind;
use overlay_builder::points::gathered;
use overlay_geom::error::OverlayError;
use overlay_geom::integer::OverlayInt;
use overlay_geom::point::IntPoint;
use overlay_geom::resource::IntShapeResource;
use std::alloc::Allocator;

impl<I: OverlayInt, A: Allocator + Clone> Overlay<I, A> {
    /// Adds the steps of a contour: from each point to the next, and from the last to the first; a
    /// step between equal points is none. Unless `options.preserve_input_collinear`, points on one
    /// line with their two neighbours are dropped first. The points are in the coordinate range.
    ///
    /// Refusals, which leave the builder as it was: `Failed` before anything else, `TooManyEdges`
    /// where the weight would come to 2^31, `Memory`.
    pub fn add_contour(
        &mut self,
        contour: &[IntPoint<I>],
        shape_type: ShapeType,
    ) -> Result<(), OverlayError>
        requires { AllInRange I.limit (plain_points I.whole contour.now) }
        ensures added { AddsContourAsAsked self.old.options.preserve_input_collinear shape_type
            (plain_points I.whole contour.now) (held_by self.old) (held_by self.new) result }
        ensures kept { self.new ≡ record self.old { edges = self.new.edges } }
    {
        let kind = contour_kind(self.options.preserve_input_collinear);
        self.core
            .add_path(contour, kind, passing_without_data(shape_type))?;
        Ok(())
    }

    /// Adds one contour, as `add_contour` does, whose points the iterator gives. It ends, and the
    /// points are in the coordinate range. Refusals, which leave the builder as it was, are those of
    /// `add_contour`; where the builder has failed the iterator is not asked.
    pub fn add_path_iter<P: Iterator<Item = IntPoint<I>> + Drop>(
        &mut self,
        iter: P,
        shape_type: ShapeType,
    ) -> Result<(), OverlayError>
        requires can { P.can_next iter }
        requires ends { IsFinite (P.remaining iter) }
        requires in_range { (ps : List (IntPoint I)) → Drains P.next_gives iter ps
            → AllInRange I.limit (plain_points I.whole ps) }
        ensures added { let keep_points = self.old.options.preserve_input_collinear in
            AddsGivenAsAsked weight P.next_gives iter
            (λ ps. AddsContour keep_points (edge_for shape_type) (plain_points I.whole ps))
            (λ ps. ContourWeighsTooMuch keep_points shape_type (plain_points I.whole ps))
            (held_by self.old) (held_by self.new) result }
        ensures kept { self.new ≡ record self.old { edges = self.new.edges } }
    {
        let content = self.core.content();
        self.core.check_usable()?;
        let points = gathered(content.allocator().clone()?, iter)?;
        self.add_contour(&points, shape_type)
    }

    /// Adds all paths of the resource in order, each as `add_contour` does. The points are in the
    /// coordinate range.
    ///
    /// Refusals: `Failed` before anything else, and then nothing is changed; `TooManyEdges` at a path that would
    /// bring the weight to 2^31; `Memory` at some path. After these two exactly the paths before the refused path
    /// are added, and the builder has not failed: a query answers for its edges before and these paths. To go on
    /// after `Memory`, `clear` it, or call `reinit_..`, and add all anew, since paths that were added would count
    /// twice. Or add path by path with `add_contour`, where a refusal adds nothing of its path, and go on at the
    /// refused one.
    pub fn add_source<R0: IntShapeResource<I>>(
        &mut self,
        resource: &R0,
        shape_type: ShapeType,
    ) -> Result<(), OverlayError>
        requires { All (AllInRange I.limit) (R0.paths resource.now) }
        ensures { BuilderAdds (paths_for shape_type (R0.paths resource.now)) self.old self.new result }
    {
        let kind = contour_kind(self.options.preserve_input_collinear);
        self.core
            .add_paths(resource, kind, passing_without_data(shape_type))
    }

    /// Drops the edges and mends a failed builder; `solver`, `options` and `boolean_buffer` stay.
    /// It takes no memory.
    pub fn clear(&mut self)
        ensures { self.new ≡ cleared self.old }
    {
        self.core.clear();
        self.viewed = None;
    }

    /// Drops the edges and mends a failed builder, and then adds the paths of `subj` as the subject
    /// and those of `clip` as the clip. `solver`, `options` and `boolean_buffer` stay. The points
    /// are in the coordinate range.
    ///
    /// Refusals are `TooManyEdges` and `Memory`, as those of `add_source`: exactly the paths before
    /// the refused one are added then, of `clip` none before `subj` is whole. After `Memory` the same call
    /// can be made again, since it drops these first.
    pub fn reinit_with_subj_and_clip<R0: IntShapeResource<I>, R1: IntShapeResource<I>>(
        &mut self,
        subj: &R0,
        clip: &R1,
    ) -> Result<(), OverlayError>
        requires subj_in_range { All (AllInRange I.limit) (R0.paths subj.now) }
        requires clip_in_range { All (AllInRange I.limit) (R1.paths clip.now) }
        ensures { BuilderAdds (subject_and_clip (R0.paths subj.now) (R1.paths clip.now))
            (cleared self.old) self.new result }
    {
        self.reinit_with_subj(subj)?;
        self.add_source(clip, ShapeType::Clip)
    }

    /// Drops the edges and mends a failed builder, and then adds the paths of `subj` as the subject.
    /// `solver`, `options` and `boolean_buffer` stay. The points are in the coordinate range.
    ///
    /// Refusals are `TooManyEdges` and `Memory`, as those of `add_source`: exactly the paths before
    /// the refused one are added then. After `Memory` the same call can be made again, since it drops
    /// these first.
    pub fn reinit_with_subj<R0: IntShapeResource<I>>(
        &mut self,
        subj: &R0,
    ) -> Result<(), OverlayError>
        requires { All (AllInRange I.limit) (R0.paths subj.now) }
        ensures { BuilderAdds (paths_for ShapeType.Subject (R0.paths subj.now))
            (cleared self.old) self.new result }
    {
        self.clear();
        self.add_source(subj, ShapeType::Subject)
    }
}
