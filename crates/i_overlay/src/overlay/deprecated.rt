//! Calls that the original keeps under old names: each is one call of a constructor, of `add_source` or of an
//! overlay of paths alone, over what borrows the lists that it is given. Of shapes it reads as many contours as
//! `usize` can count.

ghost use Rattle.std.specs.Prelude.{◌≡◌, ◌∷◌, [], All, false, Some, IfOk, IfErr, OnOk};
ghost use Rattle.overlay_geom.specs.declared.options.ShapeType.TheVariants.{Subject};
ghost use Rattle.overlay_geom.specs.Flat.{paths_in};
ghost use Rattle.overlay_geom.specs.Paths.{paths_of_shape, paths_of_shapes, counted_paths, plain_shapes};
ghost use Rattle.overlay_geom.specs.Points.{plain_points, AllInRange};
ghost use Rattle.overlay_extract.specs.Results.{asked, IsResult};
ghost use Rattle.overlay_builder.specs.GivenPaths.{paths_for, subject_and_clip, added_paths};
ghost use Rattle.overlay_builder.specs.PathLists.{HoldsPaths, MayRefuseBuilder};
ghost use Rattle.i_overlay.specs.Adding.{BuilderAdds};
ghost use Rattle.i_overlay.specs.Alone.{AnswersAlone};
ghost use Rattle.i_overlay.specs.Builder.{empty_builder, held_by, IsNewBuilder};

use crate::overlay::{IntOverlayOptions, Overlay, ShapeType};
use crate::solver::Solver;
use overlay_geom::error::OverlayError;
use overlay_geom::fill_rule::FillRule;
use overlay_geom::flat::contours::FlatContoursBuffer;
use overlay_geom::integer::OverlayInt;
use overlay_geom::overlay_rule::OverlayRule;
use overlay_geom::path::{IntContour, IntShape, IntShapes, PathRef};
use overlay_geom::point::IntPoint;
use overlay_geom::resource::borrowed::{BorrowedContours, BorrowedShapes};
use std::alloc::Allocator;

impl<I: OverlayInt, A: Allocator + Clone> Overlay<I, A> {
    /// A builder with the contour `subj` as the subject and the contour `clip` as the clip, as
    /// `from_subj_and_clip` makes it: the default options and the default solver. The points are in the
    /// coordinate range, and refusals are those of that call.
    ///
    /// Deprecated: `from_subj_and_clip` takes its place.
    pub fn with_contour(
        alloc: A,
        subj: &[IntPoint<I>],
        clip: &[IntPoint<I>],
    ) -> Result<Self, OverlayError>
        requires subj_in_range { AllInRange I.limit (plain_points I.whole subj.now) }
        requires clip_in_range { AllInRange I.limit (plain_points I.whole clip.now) }
        ensures ok { IfOk result (λ o. HoldsPaths (added_paths false (subject_and_clip
            (plain_points I.whole subj.now ∷ []) (plain_points I.whole clip.now ∷ []))) o.edges) }
        ensures made { IfOk result (λ o. IsNewBuilder I.WideUInt.natural o) }
        ensures err { IfErr result (MayRefuseBuilder (added_paths false (subject_and_clip
            (plain_points I.whole subj.now ∷ []) (plain_points I.whole clip.now ∷ [])))) }
    {
        let subj_path = PathRef { points: subj };
        let clip_path = PathRef { points: clip };
        Overlay::from_subj_and_clip(alloc, &subj_path, &clip_path)
    }

    /// A builder with the contour `subj` as the subject and the contour `clip` as the clip, as
    /// `from_subj_and_clip_custom` makes it: these options and this solver. The points are in the
    /// coordinate range, and refusals are those of that call.
    ///
    /// Deprecated: `from_subj_and_clip_custom` takes its place.
    pub fn with_contour_custom(
        alloc: A,
        subj: &[IntPoint<I>],
        clip: &[IntPoint<I>],
        options: IntOverlayOptions<I::WideUInt>,
        solver: Solver,
    ) -> Result<Self, OverlayError>
        requires subj_in_range { AllInRange I.limit (plain_points I.whole subj.now) }
        requires clip_in_range { AllInRange I.limit (plain_points I.whole clip.now) }
        ensures ok { IfOk result (λ o. HoldsPaths (added_paths options.preserve_input_collinear (subject_and_clip
            (plain_points I.whole subj.now ∷ []) (plain_points I.whole clip.now ∷ []))) o.edges) }
        ensures made { IfOk result (λ o. o ≡ record (empty_builder options solver) { edges = o.edges }) }
        ensures err { IfErr result (MayRefuseBuilder (added_paths options.preserve_input_collinear (subject_and_clip
            (plain_points I.whole subj.now ∷ []) (plain_points I.whole clip.now ∷ [])))) }
    {
        let subj_path = PathRef { points: subj };
        let clip_path = PathRef { points: clip };
        Overlay::from_subj_and_clip_custom(alloc, &subj_path, &clip_path, options, solver)
    }

    /// A builder with the contours of `subj` as the subject and those of `clip` as the clip, as
    /// `from_subj_and_clip` makes it: the default options and the default solver. The points are in the
    /// coordinate range, and refusals are those of that call.
    ///
    /// Deprecated: `from_subj_and_clip` takes its place.
    pub fn with_contours<B: Allocator, C: Allocator>(
        alloc: A,
        subj: &[IntContour<I, B>],
        clip: &[IntContour<I, C>],
    ) -> Result<Self, OverlayError>
        requires subj_in_range { All (AllInRange I.limit) (paths_of_shape I.whole subj.now) }
        requires clip_in_range { All (AllInRange I.limit) (paths_of_shape I.whole clip.now) }
        ensures ok { IfOk result (λ o. HoldsPaths (added_paths false (subject_and_clip
            (paths_of_shape I.whole subj.now) (paths_of_shape I.whole clip.now))) o.edges) }
        ensures made { IfOk result (λ o. IsNewBuilder I.WideUInt.natural o) }
        ensures err { IfErr result (MayRefuseBuilder (added_paths false (subject_and_clip
            (paths_of_shape I.whole subj.now) (paths_of_shape I.whole clip.now)))) }
    {
        let subj_contours = BorrowedContours { contours: subj };
        let clip_contours = BorrowedContours { contours: clip };
        Overlay::from_subj_and_clip(alloc, &subj_contours, &clip_contours)
    }

    /// A builder with the contours of `subj` as the subject and those of `clip` as the clip, as
    /// `from_subj_and_clip_custom` makes it: these options and this solver. The points are in the
    /// coordinate range, and refusals are those of that call.
    ///
    /// Deprecated: `from_subj_and_clip_custom` takes its place.
    pub fn with_contours_custom<B: Allocator, C: Allocator>(
        alloc: A,
        subj: &[IntContour<I, B>],
        clip: &[IntContour<I, C>],
        options: IntOverlayOptions<I::WideUInt>,
        solver: Solver,
    ) -> Result<Self, OverlayError>
        requires subj_in_range { All (AllInRange I.limit) (paths_of_shape I.whole subj.now) }
        requires clip_in_range { All (AllInRange I.limit) (paths_of_shape I.whole clip.now) }
        ensures ok { IfOk result (λ o. HoldsPaths (added_paths options.preserve_input_collinear (subject_and_clip
            (paths_of_shape I.whole subj.now) (paths_of_shape I.whole clip.now))) o.edges) }
        ensures made { IfOk result (λ o. o ≡ record (empty_builder options solver) { edges = o.edges }) }
        ensures err { IfErr result (MayRefuseBuilder (added_paths options.preserve_input_collinear (subject_and_clip
            (paths_of_shape I.whole subj.now) (paths_of_shape I.whole clip.now)))) }
    {
        let subj_contours = BorrowedContours { contours: subj };
        let clip_contours = BorrowedContours { contours: clip };
        Overlay::from_subj_and_clip_custom(alloc, &subj_contours, &clip_contours, options, solver)
    }

    /// A builder with the shapes of `subj` as the subject and those of `clip` as the clip, as
    /// `from_subj_and_clip` makes it: the default options and the default solver. The points are in the
    /// coordinate range, and refusals are those of that call.
    ///
    /// Deprecated: `from_subj_and_clip` takes its place.
    pub fn with_shapes<B: Allocator, C: Allocator>(
        alloc: A,
        subj: &[IntShape<I, B>],
        clip: &[IntShape<I, C>],
    ) -> Result<Self, OverlayError>
        requires subj_in_range { All (AllInRange I.limit) (counted_paths (paths_of_shapes I.whole subj.now)) }
        requires clip_in_range { All (AllInRange I.limit) (counted_paths (paths_of_shapes I.whole clip.now)) }
        ensures ok { IfOk result (λ o. HoldsPaths (added_paths false (subject_and_clip
            (counted_paths (paths_of_shapes I.whole subj.now))
            (counted_paths (paths_of_shapes I.whole clip.now)))) o.edges) }
        ensures made { IfOk result (λ o. IsNewBuilder I.WideUInt.natural o) }
        ensures err { IfErr result (MayRefuseBuilder (added_paths false (subject_and_clip
            (counted_paths (paths_of_shapes I.whole subj.now))
            (counted_paths (paths_of_shapes I.whole clip.now))))) }
    {
        let subj_shapes = BorrowedShapes { shapes: subj };
        let clip_shapes = BorrowedShapes { shapes: clip };
        Overlay::from_subj_and_clip(alloc, &subj_shapes, &clip_shapes)
    }

    /// A builder with the shapes of `subj` as the subject and those of `clip` as the clip, as
    /// `from_subj_and_clip_custom` makes it: these options and this solver. The points are in the
    /// coordinate range, and refusals are those of that call.
    ///
    /// Deprecated: `from_subj_and_clip_custom` takes its place.
    pub fn with_shapes_options<B: Allocator, C: Allocator>(
        alloc: A,
        subj: &[IntShape<I, B>],
        clip: &[IntShape<I, C>],
        options: IntOverlayOptions<I::WideUInt>,
        solver: Solver,
    ) -> Result<Self, OverlayError>
        requires subj_in_range { All (AllInRange I.limit) (counted_paths (paths_of_shapes I.whole subj.now)) }
        requires clip_in_range { All (AllInRange I.limit) (counted_paths (paths_of_shapes I.whole clip.now)) }
        ensures ok { IfOk result (λ o. HoldsPaths (added_paths options.preserve_input_collinear (subject_and_clip
            (counted_paths (paths_of_shapes I.whole subj.now))
            (counted_paths (paths_of_shapes I.whole clip.now)))) o.edges) }
        ensures made { IfOk result (λ o. o ≡ record (empty_builder options solver) { edges = o.edges }) }
        ensures err { IfErr result (MayRefuseBuilder (added_paths options.preserve_input_collinear (subject_and_clip
            (counted_paths (paths_of_shapes I.whole subj.now))
            (counted_paths (paths_of_shapes I.whole clip.now))))) }
    {
        let subj_shapes = BorrowedShapes { shapes: subj };
        let clip_shapes = BorrowedShapes { shapes: clip };
        Overlay::from_subj_and_clip_custom(alloc, &subj_shapes, &clip_shapes, options, solver)
    }

    /// Adds the contours in order, as `add_source` does the paths of a resource.
    ///
    /// Deprecated: `add_source` takes its place.
    pub fn add_contours<B: Allocator>(
        &mut self,
        contours: &[IntContour<I, B>],
        shape_type: ShapeType,
    ) -> Result<(), OverlayError>
        requires { All (AllInRange I.limit) (paths_of_shape I.whole contours.now) }
        ensures { BuilderAdds (paths_for shape_type (paths_of_shape I.whole contours.now)) self.old self.new result }
    {
        self.add_source(&BorrowedContours { contours }, shape_type)
    }

    /// Adds the contours of a shape in order, as `add_source` does the paths of a resource.
    ///
    /// Deprecated: `add_source` takes its place.
    pub fn add_shape<B: Allocator>(
        &mut self,
        shape: &IntShape<I, B>,
        shape_type: ShapeType,
    ) -> Result<(), OverlayError>
        requires { All (AllInRange I.limit) (paths_of_shape I.whole shape.now.items) }
        ensures { BuilderAdds (paths_for shape_type (paths_of_shape I.whole shape.now.items))
            self.old self.new result }
    {
        self.add_source(shape, shape_type)
    }

    /// Adds the contours of all shapes, shape by shape, as `add_source` does the paths of a resource.
    ///
    /// Deprecated: `add_source` takes its place.
    pub fn add_shapes<B: Allocator>(
        &mut self,
        shapes: &[IntShape<I, B>],
        shape_type: ShapeType,
    ) -> Result<(), OverlayError>
        requires { All (AllInRange I.limit) (counted_paths (paths_of_shapes I.whole shapes.now)) }
        ensures { BuilderAdds (paths_for shape_type (counted_paths (paths_of_shapes I.whole shapes.now)))
            self.old self.new result }
    {
        self.add_source(&BorrowedShapes { shapes }, shape_type)
    }

    /// Adds the contours of a flat buffer in order, as `add_source` does the paths of a resource. A range that is
    /// not inside the points of the buffer is an empty path, and adds nothing.
    ///
    /// Deprecated: `add_source` takes its place.
    pub fn add_flat_buffer<B: Allocator>(
        &mut self,
        buffer: &FlatContoursBuffer<I, B>,
        shape_type: ShapeType,
    ) -> Result<(), OverlayError>
        requires { All (AllInRange I.limit) (paths_in I.whole buffer.now.points.items buffer.now.ranges.items) }
        ensures { BuilderAdds (paths_for shape_type (paths_in I.whole buffer.now.points.items buffer.now.ranges.items))
            self.old self.new result }
    {
        self.add_source(buffer, shape_type)
    }

    /// Drops the edges, mends a failed builder, and adds the contours of all shapes as the subject, shape by shape. The
    /// answer is that of `overlay` with the rule `Subject`, also where they are one contour. The points are in the
    /// coordinate range. After an answer the builder holds the arrangement of the contours alone, and there is a
    /// buffer, `boolean_buffer`.
    ///
    /// Refusals, which leave the builder failed: `NotSettled`, `TooManyEdges`, also in adding, and `Memory`.
    ///
    /// Deprecated: `simplify_source` takes its place.
    pub fn simplify_shapes<B: Allocator>(
        &mut self,
        shapes: &[IntShape<I, B>],
        fill_rule: FillRule,
    ) -> Result<IntShapes<I, A>, OverlayError>
        requires { All (AllInRange I.limit) (counted_paths (paths_of_shapes I.whole shapes.now)) }
        ensures alone { AnswersAlone I.limit self.old.solver self.old.options.preserve_input_collinear
            (paths_for Subject
            (counted_paths (paths_of_shapes I.whole shapes.now))) (held_by self.new) result }
        ensures result { IfOk result (λ v. IsResult
            (asked I.Wide.width I.WideUInt.natural fill_rule OverlayRule.Subject self.old.options)
            self.new.edges (plain_shapes I.whole v.items)) }
        ensures kept { self.new ≡ record self.old {
          edges = self.new.edges;
          boolean_buffer = self.new.boolean_buffer;
          failed = self.new.failed;
        } }
        ensures buffer { OnOk result (self.new.boolean_buffer ≡ Some tt) }
    {
        self.overlay_alone(&BorrowedShapes { shapes }, fill_rule)
    }
}
