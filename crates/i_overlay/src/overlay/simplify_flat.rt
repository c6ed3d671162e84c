//! Contours in one list that are simplified where they stand.

ghost use Rattle.std.specs.Prelude.{◌≡◌, ◌≢◌, [], All, length, false, Some, IfOk, OnOk, OnErr};
ghost use Rattle.overlay_order.specs.Content.{IsAscending};
ghost use Rattle.overlay_geom.specs.declared.options.ShapeType.TheVariants.{Subject};
ghost use Rattle.overlay_geom.specs.Flat.{part_in, first_range, paths_in};
ghost use Rattle.overlay_geom.specs.Packed.{IsPacked};
ghost use Rattle.overlay_geom.specs.Points.{plain_points, AllInRange};
ghost use Rattle.overlay_geom.specs.Settled.{IsSettled};
ghost use Rattle.overlay_builder.specs.GivenPaths.{paths_for};
ghost use Rattle.overlay_extract.specs.Results.{asked};
ghost use Rattle.i_overlay.specs.Alone.{AnswersAlone};
ghost use Rattle.i_overlay.specs.Builder.{held_by};
ghost use Rattle.i_overlay.specs.Simplified.{AreCut, AreLeft, AreSimplified, IsOutcomeOfAll};
ghost use Rattle.i_overlay.specs.Simplified.{StayAsGiven, StayOrAreGone};

use crate::overlay::Overlay;
use crate::simplifying::flat::leave_contour;
use crate::simplifying::outcome::Outcome;
use overlay_extract::extract::emptied;
use overlay_geom::error::OverlayError;
use overlay_geom::fill_rule::FillRule;
use overlay_geom::flat::contours::FlatContoursBuffer;
use overlay_geom::integer::OverlayInt;
use overlay_geom::overlay_rule::OverlayRule;
use std::alloc::{AllocError, Allocator};

impl<I: OverlayInt, A: Allocator + Clone> Overlay<I, A> {
    /// Drops the edges and mends a failed builder, adds the contours of the buffer as the subject, and leaves
    /// in the buffer the contours that they are simplified to.
    ///
    /// One contour that is simple, as `simplify_contour` says, whatever `options.min_output_area` is, stays as
    /// it is given, is reversed where it stands, or is dropped with its points. Otherwise the contours are those that
    /// `overlay_into` gives with the rule `Subject`. The points are in the coordinate range; a range that is
    /// not inside the points of the buffer is an empty path. After an answer the builder holds the arrangement
    /// of the contours alone, and there is a buffer, `boolean_buffer`.
    ///
    /// Refusals, which leave the builder failed, and the contours as they were or none: `NotSettled`,
    /// `TooManyEdges`, also in adding, and `Memory`.
    pub fn simplify_flat_buffer<B: Allocator>(
        &mut self,
        flat_buffer: &mut FlatContoursBuffer<I, B>,
        fill_rule: FillRule,
    ) -> Result<(), OverlayError>
        requires points { All (AllInRange I.limit)
            (paths_in I.whole flat_buffer.old.points.items flat_buffer.old.ranges.items) }
        ensures alone { AnswersAlone I.limit self.old.solver self.old.options.preserve_input_collinear
            (paths_for Subject
            (paths_in I.whole flat_buffer.old.points.items flat_buffer.old.ranges.items)) (held_by self.new) result }
        ensures simplified { OnOk result (AreSimplified
            (asked I.Wide.width I.WideUInt.natural fill_rule OverlayRule.Subject self.old.options)
            self.old.options.preserve_input_collinear
            (paths_in I.whole flat_buffer.old.points.items flat_buffer.old.ranges.items) self.new.edges
            (paths_in I.whole flat_buffer.new.points.items flat_buffer.new.ranges.items)) }
        ensures given_points { StayAsGiven
            (asked I.Wide.width I.WideUInt.natural fill_rule OverlayRule.Subject self.old.options)
            self.old.options.preserve_input_collinear
            (paths_in I.whole flat_buffer.old.points.items flat_buffer.old.ranges.items) self.new.edges
            → OnOk result (flat_buffer.new.points.items ≡ flat_buffer.old.points.items) }
        ensures given_ranges { StayAsGiven
            (asked I.Wide.width I.WideUInt.natural fill_rule OverlayRule.Subject self.old.options)
            self.old.options.preserve_input_collinear
            (paths_in I.whole flat_buffer.old.points.items flat_buffer.old.ranges.items) self.new.edges
            → OnOk result (flat_buffer.new.ranges.items ≡ flat_buffer.old.ranges.items) }
        ensures packed { AreCut self.old.options.preserve_input_collinear
            (paths_in I.whole flat_buffer.old.points.items flat_buffer.old.ranges.items) self.new.edges
            → OnOk result (IsPacked flat_buffer.new.points.items flat_buffer.new.ranges.items) }
        ensures no_points { OnOk result (flat_buffer.new.ranges.items ≡ [] → flat_buffer.new.points.items ≡ []) }
        ensures refused { OnErr result (StayOrAreGone flat_buffer.old.points.items flat_buffer.new.points.items
            flat_buffer.old.ranges.items flat_buffer.new.ranges.items) }
        ensures kept { self.new ≡ record self.old {
          edges = self.new.edges;
          boolean_buffer = self.new.boolean_buffer;
          failed = self.new.failed;
        } }
        ensures buffer { OnOk result (self.new.boolean_buffer ≡ Some tt) }
    {
        let outcome = self.outcome_of_contours(flat_buffer, fill_rule)?;
        let left = self.leave_contours(flat_buffer, fill_rule, outcome);
        self.core.set_failed(left.is_err());
        Ok(left?)
    }

    // Holds the contours alone, arranged, and tells what becomes of them.
    fn outcome_of_contours<B: Allocator>(
        &mut self,
        contours: &FlatContoursBuffer<I, B>,
        fill_rule: FillRule,
    ) -> Result<Outcome, OverlayError>
        requires { All (AllInRange I.limit) (paths_in I.whole contours.now.points.items contours.now.ranges.items) }
        ensures alone { AnswersAlone I.limit self.old.solver self.old.options.preserve_input_collinear
            (paths_for Subject
            (paths_in I.whole contours.now.points.items contours.now.ranges.items)) (held_by self.new) result }
        ensures outcome { IfOk result (IsOutcomeOfAll self.old.options.preserve_input_collinear fill_rule
            self.old.options.output_direction
            (paths_in I.whole contours.now.points.items contours.now.ranges.items) self.new.edges) }
        ensures kept { self.new ≡ record self.old { edges = self.new.edges; failed = self.new.failed } }
    {
        if contours.is_single_contour() {
            return self.outcome_alone(contours.as_first_contour(), fill_rule);
        }
        self.hold_alone(contours)?;
        Ok(Outcome::NotSimple)
    }

    // Leaves in the buffer what is left of the contours, of which this becomes. The builder's own buffer is there
    // afterwards.
    fn leave_contours<B: Allocator>(
        &mut self,
        contours: &mut FlatContoursBuffer<I, B>,
        fill_rule: FillRule,
        outcome: Outcome,
    ) -> Result<(), AllocError>
        requires usable { self.old.failed ≡ false }
        requires ascending { IsAscending self.old.edges }
        requires settled { IsSettled self.old.edges }
        requires single { outcome ≢ Outcome.NotSimple → length contours.old.ranges.items ≡ 1 }
        ensures left { OnOk result (AreLeft outcome
            (asked I.Wide.width I.WideUInt.natural fill_rule OverlayRule.Subject self.old.options)
            (plain_points I.whole (part_in contours.old.points.items (first_range contours.old.ranges.items)))
            self.old.edges (paths_in I.whole contours.new.points.items contours.new.ranges.items)) }
        ensures given_points { outcome ≡ Outcome.AsGiven
            → OnOk result (contours.new.points.items ≡ contours.old.points.items) }
        ensures given_ranges { outcome ≡ Outcome.AsGiven
            → OnOk result (contours.new.ranges.items ≡ contours.old.ranges.items) }
        ensures packed { outcome ≡ Outcome.NotSimple
            → OnOk result (IsPacked contours.new.points.items contours.new.ranges.items) }
        ensures no_points { OnOk result (contours.new.ranges.items ≡ [] → contours.new.points.items ≡ []) }
        ensures refused { OnErr result (StayOrAreGone contours.old.points.items contours.new.points.items
            contours.old.ranges.items contours.new.ranges.items) }
        ensures kept { self.new ≡ record self.old { boolean_buffer = self.new.boolean_buffer } }
        ensures buffer { OnOk result (self.new.boolean_buffer ≡ Some tt) }
    {
        if outcome == Outcome::NotSimple {
            emptied(contours);
            return self.extract_into(OverlayRule::Subject, fill_rule, contours);
        }
        self.keep_buffer()?;
        leave_contour(contours, outcome);
        Ok(())
    }
}
