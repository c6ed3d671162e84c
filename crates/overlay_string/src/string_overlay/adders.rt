//! Adding closed contours of the shape to a builder for strings, one by one or all paths of a resource.

ghost use Rattle.std.specs.Prelude.{◌≡◌, List, All};
ghost use Rattle.std.specs.Iterator.{Drains, IsFinite};
ghost use Rattle.overlay_geom.specs.Edges.{weight};
ghost use Rattle.overlay_geom.specs.Points.{plain_points, AllInRange};
ghost use Rattle.overlay_builder.specs.BuilderCalls.{AddsGivenAsAsked};
ghost use Rattle.overlay_builder.specs.PathLists.{AddsOne, WouldWeighTooMuch};
ghost use Rattle.overlay_string.specs.StringBuilder.{held_by, StringBuilderAddsOne, StringBuilderAdds};
ghost use Rattle.overlay_string.specs.StringPaths.{shape_contour, shape_contours, path_in, paths_in};

use crate::role::{PathRole, kind_in, passing_in};
use crate::string_overlay::StringOverlay;
use overlay_builder::points::gathered;
use overlay_geom::error::OverlayError;
use overlay_geom::integer::OverlayInt;
use overlay_geom::point::IntPoint;
use overlay_geom::resource::IntShapeResource;
use std::alloc::Allocator;

impl<I: OverlayInt, A: Allocator + Clone> StringOverlay<I, A> {
    /// Adds the steps of a contour of the shape: from each point to the next, and from the last to the first; a step
    /// between equal points is none. Points on one line with their two neighbours are dropped first. The points are
    /// in the coordinate range.
    ///
    /// Refusals, which leave the builder as it was: `Failed` before anything else, `TooManyEdges` where the weight
    /// would come to 2^31, `Memory`.
    pub fn add_shape_contour(&mut self, contour: &[IntPoint<I>]) -> Result<(), OverlayError>
        requires { AllInRange I.limit (plain_points I.whole contour.now) }
        ensures { StringBuilderAddsOne (shape_contour (plain_points I.whole contour.now)) self.old self.new result }
    {
        self.add_one(contour, PathRole::Shape)
    }

    /// Adds one contour of the shape, as `add_shape_contour` does, whose points the iterator gives. It ends, and the
    /// points are in the coordinate range. Refusals, which leave the builder as it was, are those of
    /// `add_shape_contour`; where the builder has failed the iterator is not asked.
    pub fn add_shape_contour_iter<P: Iterator<Item = IntPoint<I>> + Drop>(
        &mut self,
        iter: P,
    ) -> Result<(), OverlayError>
        requires can { P.can_next iter }
        requires ends { IsFinite (P.remaining iter) }
        requires in_range { (ps : List (IntPoint I)) → Drains P.next_gives iter ps
            → AllInRange I.limit (plain_points I.whole ps) }
        ensures added { AddsGivenAsAsked weight P.next_gives iter
            (λ ps. AddsOne (shape_contour (plain_points I.whole ps)))
            (λ ps. WouldWeighTooMuch weight (shape_contour (plain_points I.whole ps)))
            (held_by self.old) (held_by self.new) result }
        ensures kept { self.new ≡ record self.old { edges = self.new.edges } }
    {
        let content = self.core.content();
        self.core.check_usable()?;
        let points = gathered(content.allocator().clone()?, iter)?;
        self.add_shape_contour(&points)
    }

    /// Adds all paths of the resource in order as contours of the shape, each as `add_shape_contour` does. The points
    /// are in the coordinate range.
    ///
    /// Refusals: `Failed` before anything else, and then nothing is changed; `TooManyEdges` at a path that would
    /// bring the weight to 2^31; `Memory` at some path, it is not said which. After these two exactly the paths
    /// before that one are added, and the builder has not failed: what it holds answers for these. To go on after
    /// `Memory`, make a new one, since none of them is taken out again and those that are in would count twice; or
    /// add path by path with `add_shape_contour`, where a refusal adds nothing, and go on at the refused one.
    pub fn add_shape_source<R0: IntShapeResource<I>>(
        &mut self,
        resource: &R0,
    ) -> Result<(), OverlayError>
        requires { All (AllInRange I.limit) (R0.paths resource.now) }
        ensures { StringBuilderAdds (shape_contours (R0.paths resource.now)) self.old self.new result }
    {
        self.add_all(resource, PathRole::Shape)
    }

    // Adds a path in its role.
    pub(super) fn add_one(
        &mut self,
        points: &[IntPoint<I>],
        role: PathRole,
    ) -> Result<(), OverlayError>
        requires { AllInRange I.limit (plain_points I.whole points.now) }
        ensures { StringBuilderAddsOne (path_in role (plain_points I.whole points.now)) self.old self.new result }
    {
        self.core.add_path(points, kind_in(role), passing_in(role))?;
        Ok(())
    }

    // Adds all paths of the resource in order, each in this role.
    pub(super) fn add_all<R0: IntShapeResource<I>>(
        &mut self,
        resource: &R0,
        role: PathRole,
    ) -> Result<(), OverlayError>
        requires { All (AllInRange I.limit) (R0.paths resource.now) }
        ensures { StringBuilderAdds (paths_in role (R0.paths resource.now)) self.old self.new result }
    {
        self.core
            .add_paths(resource, kind_in(role), passing_in(role))
    }
}
