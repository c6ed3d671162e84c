//! Simplification: the paths that a builder is given take the place of what it held, and clean shapes of them
//! are the answer.

ghost use Rattle.std.specs.Prelude.{◌≡◌, ◌↔◌, ◌∷◌, [], All, length, IsTrue, false, Some, None, option_map};
ghost use Rattle.std.specs.Prelude.{IfOk, OnOk};
ghost use Rattle.overlay_order.specs.Content.{IsAscending};
ghost use Rattle.overlay_geom.specs.declared.options.ShapeType.TheVariants.{Subject};
ghost use Rattle.overlay_geom.specs.Paths.{paths_of_shape, plain_shapes};
ghost use Rattle.overlay_geom.specs.Points.{plain_points, AllInRange};
ghost use Rattle.overlay_geom.specs.Settled.{IsSettled};
ghost use Rattle.overlay_builder.specs.GivenPaths.{paths_for};
ghost use Rattle.overlay_extract.specs.Results.{asked};
ghost use Rattle.i_overlay.specs.Alone.{AnswersAlone};
ghost use Rattle.i_overlay.specs.Builder.{held_by};
ghost use Rattle.i_overlay.specs.Simplified.{IsLeft, IsSimplified, IsSimplifiedContour, IsSimplifiedSource};
ghost use Rattle.i_overlay.specs.Simplified.{StayAsGiven, shapes_answered};

use crate::overlay::Overlay;
use crate::simplifying::outcome::Outcome;
use crate::simplifying::shapes::shapes_left;
use overlay_geom::error::OverlayError;
use overlay_geom::fill_rule::FillRule;
use overlay_geom::integer::OverlayInt;
use overlay_geom::number::UIntNumber;
use overlay_geom::overlay_rule::OverlayRule;
use overlay_geom::path::{IntContour, IntShapes};
use overlay_geom::point::IntPoint;
use overlay_geom::resource::IntShapeResource;
use overlay_geom::resource::borrowed::BorrowedContours;
use std::alloc::{AllocError, Allocator};

impl<I: OverlayInt, A: Allocator + Clone> Overlay<I, A> {
    /// Drops the edges and mends a failed builder, adds the paths of the resource as the subject, and gives
    /// the shapes that they are simplified to.
    ///
    /// One path is answered as `simplify_contour` does, with a shape of it where it stays as it is given, if
    /// `options.min_output_area` is zero. Otherwise the answer is that of `overlay` with the rule `Subject`.
    /// The points are in the coordinate range. After an answer the builder holds the arrangement of the paths
    /// alone, and there is a buffer, `boolean_buffer`.
    ///
    /// Refusals, which leave the builder failed: `NotSettled`, `TooManyEdges`, also in adding, and `Memory`.
    pub fn simplify_source<R0: IntShapeResource<I>>(
        &mut self,
        resource: &R0,
        fill_rule: FillRule,
    ) -> Result<IntShapes<I, A>, OverlayError>
        requires points { All (AllInRange I.limit) (R0.paths resource.now) }
        ensures alone { AnswersAlone I.limit self.old.solver self.old.options.preserve_input_collinear
            (paths_for Subject (R0.paths resource.now)) (held_by self.new) result }
        ensures simplified { IfOk result (λ v. IsSimplifiedSource
            (asked I.Wide.width I.WideUInt.natural fill_rule OverlayRule.Subject self.old.options)
            self.old.options.preserve_input_collinear (R0.paths resource.now) self.new.edges
            (plain_shapes I.whole v.items)) }
        ensures kept { self.new ≡ record self.old {
          edges = self.new.edges;
          boolean_buffer = self.new.boolean_buffer;
          failed = self.new.failed;
        } }
        ensures buffer { OnOk result (self.new.boolean_buffer ≡ Some tt) }
    {
        if self.takes_fast_path(resource) {
            return self.simplify_path(resource.path(0), fill_rule);
        }
        self.overlay_alone(resource, fill_rule)
    }

    /// Drops the edges and mends a failed builder, adds the contour as the subject, and gives the shapes
    /// that it is simplified to: `None` where it stays as it is given.
    ///
    /// A contour is simple where no point of it was left out in adding, none of its edges was cut, no point
    /// is visited twice, and some edge is left. Under `Positive` a simple one that runs clockwise leaves no
    /// shape, and under `Negative` one that runs counterclockwise; any other stays as it is given where it
    /// runs in the direction `options.output_direction`, and is reversed where it runs against it, whatever
    /// `options.min_output_area` says. Points on one line that stayed in adding stay then.
    ///
    /// Of a contour that is not simple the answer is that of `overlay` with the rule `Subject`. The points
    /// are in the coordinate range. After an answer the builder holds the arrangement of the contour alone,
    /// and there is a buffer, `boolean_buffer`.
    ///
    /// Refusals, which leave the builder failed: `NotSettled`, `TooManyEdges`, also in adding, and `Memory`.
    pub fn simplify_contour(
        &mut self,
        contour: &[IntPoint<I>],
        fill_rule: FillRule,
    ) -> Result<Option<IntShapes<I, A>>, OverlayError>
        requires points { AllInRange I.limit (plain_points I.whole contour.now) }
        ensures alone { AnswersAlone I.limit self.old.solver self.old.options.preserve_input_collinear
            (paths_for Subject (plain_points I.whole contour.now ∷ [])) (held_by self.new) result }
        ensures simplified { IfOk result (λ o. IsSimplified
            (asked I.Wide.width I.WideUInt.natural fill_rule OverlayRule.Subject self.old.options)
            self.old.options.preserve_input_collinear (plain_points I.whole contour.now ∷ []) self.new.edges
            (shapes_answered (plain_points I.whole contour.now ∷ [])
            (option_map (λ v. plain_shapes I.whole v.items) o))) }
        ensures as_given { IfOk result (λ o. (o ≡ None) ↔ StayAsGiven
            (asked I.Wide.width I.WideUInt.natural fill_rule OverlayRule.Subject self.old.options)
            self.old.options.preserve_input_collinear (plain_points I.whole contour.now ∷ []) self.new.edges) }
        ensures kept { self.new ≡ record self.old {
          edges = self.new.edges;
          boolean_buffer = self.new.boolean_buffer;
          failed = self.new.failed;
        } }
        ensures buffer { OnOk result (self.new.boolean_buffer ≡ Some tt) }
    {
        let outcome = self.outcome_alone(contour, fill_rule)?;
        let answer = self.answer(contour, fill_rule, outcome);
        self.core.set_failed(answer.is_err());
        Ok(answer?)
    }

    /// Drops the edges and mends a failed builder, adds the contours of the shape as the subject, and gives the
    /// shapes that they are simplified to: `None` where they stay as they are given.
    ///
    /// One contour is answered as `simplify_contour` does, whatever `options.min_output_area` says. Otherwise
    /// the answer is that of `overlay` with the rule `Subject`. The points are in the coordinate range. After
    /// an answer the builder holds the arrangement of the contours alone, and there is a buffer,
    /// `boolean_buffer`.
    ///
    /// Refusals, which leave the builder failed: `NotSettled`, `TooManyEdges`, also in adding, and `Memory`.
    pub fn simplify_shape<B: Allocator>(
        &mut self,
        shape: &[IntContour<I, B>],
        fill_rule: FillRule,
    ) -> Result<Option<IntShapes<I, A>>, OverlayError>
        requires points { All (AllInRange I.limit) (paths_of_shape I.whole shape.now) }
        ensures alone { AnswersAlone I.limit self.old.solver self.old.options.preserve_input_collinear
            (paths_for Subject (paths_of_shape I.whole shape.now)) (held_by self.new) result }
        ensures simplified { IfOk result (λ o. IsSimplified
            (asked I.Wide.width I.WideUInt.natural fill_rule OverlayRule.Subject self.old.options)
            self.old.options.preserve_input_collinear (paths_of_shape I.whole shape.now) self.new.edges
            (shapes_answered (paths_of_shape I.whole shape.now) (option_map (λ v. plain_shapes I.whole v.items) o))) }
        ensures as_given { IfOk result (λ o. (o ≡ None) ↔ StayAsGiven
            (asked I.Wide.width I.WideUInt.natural fill_rule OverlayRule.Subject self.old.options)
            self.old.options.preserve_input_collinear (paths_of_shape I.whole shape.now) self.new.edges) }
        ensures kept { self.new ≡ record self.old {
          edges = self.new.edges;
          boolean_buffer = self.new.boolean_buffer;
          failed = self.new.failed;
        } }
        ensures buffer { OnOk result (self.new.boolean_buffer ≡ Some tt) }
    {
        if shape.len() == 1 {
            return self.simplify_contour(&shape[0], fill_rule);
        }
        let contours = BorrowedContours { contours: shape };
        Ok(Some(self.overlay_alone(&contours, fill_rule)?))
    }

    // Whether the resource is one path and the minimum area is zero.
    fn takes_fast_path<R0: IntShapeResource<I>>(&self, resource: &R0) -> bool
        ensures { IsTrue result ↔ ((length (R0.paths resource.now) ≡ 1)
            × (I.WideUInt.natural self.now.options.min_output_area ≡ 0)) }
    {
        resource.path_count() == 1 && I::WideUInt::zero().is_at_least(self.options.min_output_area)
    }

    // Holds the path alone, arranged, and gives the shapes that it is simplified to.
    fn simplify_path(
        &mut self,
        contour: &[IntPoint<I>],
        fill_rule: FillRule,
    ) -> Result<IntShapes<I, A>, OverlayError>
        requires { AllInRange I.limit (plain_points I.whole contour.now) }
        ensures alone { AnswersAlone I.limit self.old.solver self.old.options.preserve_input_collinear
            (paths_for Subject (plain_points I.whole contour.now ∷ [])) (held_by self.new) result }
        ensures simplified { IfOk result (λ v. IsSimplifiedContour
            (asked I.Wide.width I.WideUInt.natural fill_rule OverlayRule.Subject self.old.options)
            self.old.options.preserve_input_collinear (plain_points I.whole contour.now) self.new.edges
            (plain_shapes I.whole v.items)) }
        ensures kept { self.new ≡ record self.old {
          edges = self.new.edges;
          boolean_buffer = self.new.boolean_buffer;
          failed = self.new.failed;
        } }
        ensures buffer { OnOk result (self.new.boolean_buffer ≡ Some tt) }
    {
        let outcome = self.outcome_alone(contour, fill_rule)?;
        let shapes = self.left(contour, fill_rule, outcome);
        self.core.set_failed(shapes.is_err());
        Ok(shapes?)
    }

    // The answer for a contour of which this becomes: `None` where it stays as it is given. The buffer is
    // there afterwards.
    fn answer(
        &mut self,
        contour: &[IntPoint<I>],
        fill_rule: FillRule,
        outcome: Outcome,
    ) -> Result<Option<IntShapes<I, A>>, AllocError>
        requires usable { self.old.failed ≡ false }
        requires ascending { IsAscending self.old.edges }
        requires settled { IsSettled self.old.edges }
        ensures left { IfOk result (λ o. IsLeft outcome
            (asked I.Wide.width I.WideUInt.natural fill_rule OverlayRule.Subject self.old.options)
            (plain_points I.whole contour.now) self.old.edges
            (shapes_answered (plain_points I.whole contour.now ∷ [])
            (option_map (λ v. plain_shapes I.whole v.items) o))) }
        ensures as_given { IfOk result (λ o. (o ≡ None) ↔ (outcome ≡ Outcome.AsGiven)) }
        ensures kept { self.new ≡ record self.old { boolean_buffer = self.new.boolean_buffer } }
        ensures buffer { OnOk result (self.new.boolean_buffer ≡ Some tt) }
    {
        if outcome == Outcome::AsGiven {
            self.keep_buffer()?;
            return Ok(None);
        }
        Ok(Some(self.left(contour, fill_rule, outcome)?))
    }

    // The shapes that are left of a contour of which this becomes. The buffer is there afterwards.
    fn left(
        &mut self,
        contour: &[IntPoint<I>],
        fill_rule: FillRule,
        outcome: Outcome,
    ) -> Result<IntShapes<I, A>, AllocError>
        requires usable { self.old.failed ≡ false }
        requires ascending { IsAscending self.old.edges }
        requires settled { IsSettled self.old.edges }
        ensures left { IfOk result (λ v. IsLeft outcome
            (asked I.Wide.width I.WideUInt.natural fill_rule OverlayRule.Subject self.old.options)
            (plain_points I.whole contour.now) self.old.edges (plain_shapes I.whole v.items)) }
        ensures kept { self.new ≡ record self.old { boolean_buffer = self.new.boolean_buffer } }
        ensures buffer { OnOk result (self.new.boolean_buffer ≡ Some tt) }
    {
        if outcome == Outcome::NotSimple {
            return self.extract(OverlayRule::Subject, fill_rule);
        }
        self.keep_buffer()?;
        shapes_left(self.core.content().allocator().clone()?, contour, outcome)
    }
}
