//! Paths that take the place of what a builder held, as the subject's.

ghost use Rattle.std.specs.Prelude.{◌≡◌, ◌∷◌, [], All, Some, IfOk, OnOk};
ghost use Rattle.overlay_geom.specs.declared.options.ShapeType.TheVariants.{Subject};
ghost use Rattle.overlay_geom.specs.Paths.{plain_shapes};
ghost use Rattle.overlay_geom.specs.Points.{plain_points, AllInRange};
ghost use Rattle.overlay_builder.specs.GivenPaths.{paths_for};
ghost use Rattle.overlay_extract.specs.Results.{asked, IsResult};
ghost use Rattle.i_overlay.specs.Alone.{AnswersAlone};
ghost use Rattle.i_overlay.specs.Outcome.{IsOutcome};
ghost use Rattle.i_overlay.specs.Builder.{held_by};

use crate::overlay::Overlay;
use crate::simplifying::arranged_alone::arrange_alone;
use crate::simplifying::outcome::Outcome;
use crate::simplifying::simple::{Simplifying, outcome_of_contour};
use overlay_geom::error::OverlayError;
use overlay_geom::fill_rule::FillRule;
use overlay_geom::integer::OverlayInt;
use overlay_geom::overlay_rule::OverlayRule;
use overlay_geom::path::IntShapes;
use overlay_geom::point::IntPoint;
use overlay_geom::resource::IntShapeResource;
use overlay_walk::buffer::BooleanExtractionBuffer;
use std::alloc::{AllocError, Allocator};

impl<I: OverlayInt, A: Allocator + Clone> Overlay<I, A> {
    /// Holds the paths of the resource alone, arranged, and gives the shapes round what the rule fills of
    /// them. The buffer is there afterwards.
    pub(crate) fn overlay_alone<R0: IntShapeResource<I>>(
        &mut self,
        resource: &R0,
        fill_rule: FillRule,
    ) -> Result<IntShapes<I, A>, OverlayError>
        requires { All (AllInRange I.limit) (R0.paths resource.now) }
        ensures alone { AnswersAlone I.limit self.old.solver self.old.options.preserve_input_collinear
            (paths_for Subject (R0.paths resource.now)) (held_by self.new) result }
        ensures result { IfOk result (λ v. IsResult
            (asked I.Wide.width I.WideUInt.natural fill_rule OverlayRule.Subject self.old.options)
            self.new.edges (plain_shapes I.whole v.items)) }
        ensures kept { self.new ≡ record self.old {
          edges = self.new.edges;
          boolean_buffer = self.new.boolean_buffer;
          failed = self.new.failed;
        } }
        ensures buffer { OnOk result (self.new.boolean_buffer ≡ Some tt) }
    {
        self.hold_alone(resource)?;
        let shapes = self.extract(OverlayRule::Subject, fill_rule);
        self.core.set_failed(shapes.is_err());
        Ok(shapes?)
    }

    /// Holds the paths of the resource alone, arranged.
    pub(crate) fn hold_alone<R0: IntShapeResource<I>>(
        &mut self,
        resource: &R0,
    ) -> Result<(), OverlayError>
        requires { All (AllInRange I.limit) (R0.paths resource.now) }
        ensures alone { AnswersAlone I.limit self.old.solver self.old.options.preserve_input_collinear
            (paths_for Subject (R0.paths resource.now)) (held_by self.new) result }
        ensures kept { self.new ≡ record self.old { edges = self.new.edges; failed = self.new.failed } }
    {
        self.viewed = None;
        let keeps_points = self.options.preserve_input_collinear;
        arrange_alone(&mut self.core, self.solver, resource, keeps_points)
    }

    /// Holds the contour alone, arranged, and tells what becomes of it.
    pub(crate) fn outcome_alone(
        &mut self,
        contour: &[IntPoint<I>],
        fill_rule: FillRule,
    ) -> Result<Outcome, OverlayError>
        requires { AllInRange I.limit (plain_points I.whole contour.now) }
        ensures alone { AnswersAlone I.limit self.old.solver self.old.options.preserve_input_collinear
            (paths_for Subject (plain_points I.whole contour.now ∷ [])) (held_by self.new) result }
        ensures outcome { IfOk result (IsOutcome self.old.options.preserve_input_collinear fill_rule
            self.old.options.output_direction (plain_points I.whole contour.now) self.new.edges) }
        ensures kept { self.new ≡ record self.old { edges = self.new.edges; failed = self.new.failed } }
    {
        self.viewed = None;
        let asked = Simplifying {
            solver: self.solver,
            keeps_points: self.options.preserve_input_collinear,
            fill_rule,
            output_direction: self.options.output_direction,
        };
        outcome_of_contour(&mut self.core, contour, asked)
    }

    /// Makes a buffer where there is none.
    pub(crate) fn keep_buffer(&mut self) -> Result<(), AllocError>
        ensures kept { self.new ≡ record self.old { boolean_buffer = self.new.boolean_buffer } }
        ensures buffer { OnOk result (self.new.boolean_buffer ≡ Some tt) }
    {
        if self.boolean_buffer.is_none() {
            let alloc = self.core.content().allocator().clone()?;
            self.boolean_buffer = Some(BooleanExtractionBuffer::default(alloc));
        }
        Ok(())
    }
}
