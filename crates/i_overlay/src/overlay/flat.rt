//! Overlays that use the builder up.

ghost use Rattle.std.specs.Prelude.{◌≡◌, false, IfOk};
ghost use Rattle.overlay_order.specs.Content.{IsAscending};
ghost use Rattle.overlay_extract.specs.Results.{asked, IsResult};
ghost use Rattle.overlay_geom.specs.Flat.{shapes_in};
ghost use Rattle.overlay_geom.specs.FlatShapes.{AreShapesPacked};
ghost use Rattle.overlay_geom.specs.Settled.{IsSettled};
ghost use Rattle.i_overlay.specs.UsedUp.{GivesFlatShapes};

use crate::overlay::Overlay;
use overlay_extract::extract::extract_flat_shapes;
use overlay_geom::error::OverlayError;
use overlay_geom::fill_rule::FillRule;
use overlay_geom::flat::shapes::FlatShapesBuffer;
use overlay_geom::integer::OverlayInt;
use overlay_geom::overlay_rule::OverlayRule;
use overlay_walk::buffer::BooleanExtractionBuffer;
use std::alloc::{AllocError, Allocator};

impl<I: OverlayInt, A: Allocator + Clone> Overlay<I, A> {
    /// Splits the edges where they meet, and gives the shapes of `overlay` in one list, with nothing between
    /// them. The builder is used up: what it holds is dropped on the way, so that less memory is held.
    ///
    /// Refusals are those of `build_separate_vectors`.
    pub fn into_flat_shapes(
        mut self,
        overlay_rule: OverlayRule,
        fill_rule: FillRule,
    ) -> Result<FlatShapesBuffer<I, A>, OverlayError>
        ensures answers { GivesFlatShapes I.whole I.limit
            (asked I.Wide.width I.WideUInt.natural fill_rule overlay_rule self.options) self result }
        ensures packed { IfOk result
            (λ b. AreShapesPacked b.points.items b.contour_ranges.items b.shape_ranges.items) }
    {
        self.core.arrange(self.solver, &mut ())?;
        Ok(self.extracted(overlay_rule, fill_rule)?)
    }

    // The shapes round the region of the arranged edges, in one list. The builder is dropped before the steps
    // are put in order.
    fn extracted(
        mut self,
        overlay_rule: OverlayRule,
        fill_rule: FillRule,
    ) -> Result<FlatShapesBuffer<I, A>, AllocError>
        requires usable { self.failed ≡ false }
        requires ascending { IsAscending self.edges }
        requires settled { IsSettled self.edges }
        ensures result { IfOk result (λ b. IsResult
            (asked I.Wide.width I.WideUInt.natural fill_rule overlay_rule self.options) self.edges
            (shapes_in I.whole b.points.items b.contour_ranges.items b.shape_ranges.items)) }
        ensures packed { IfOk result
            (λ b. AreShapesPacked b.points.items b.contour_ranges.items b.shape_ranges.items) }
    {
        let graph = self.graph_filled_by(fill_rule)?;
        let options = self.options;
        let buffer = BooleanExtractionBuffer::taken_from(
            &mut self.boolean_buffer,
            graph.allocator(),
        )?;
        drop(self);
        extract_flat_shapes(graph, overlay_rule, options, buffer)
    }
}
