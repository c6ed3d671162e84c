//! The region of an overlay as shapes of edges with their filled sides.

ghost use Rattle.std.specs.Prelude.{◌≡◌, false, Some, IfOk, OnOk};
ghost use Rattle.overlay_geom.specs.Settled.{IsSettled};
ghost use Rattle.overlay_order.specs.Content.{IsAscending};
ghost use Rattle.overlay_extract.specs.GivenRegion.{WindsRoundGiven};
ghost use Rattle.overlay_extract.specs.Results.{asked};
ghost use Rattle.overlay_vector.specs.VectorShapes.{plain_vector_shapes, steps_along};
ghost use Rattle.i_overlay.specs.ShapeVectors.{AreShapeVectors};
ghost use Rattle.i_overlay.specs.Queries.{BuilderExtracts};

use crate::overlay::Overlay;
use overlay_geom::error::OverlayError;
use overlay_geom::fill_rule::FillRule;
use overlay_geom::integer::OverlayInt;
use overlay_geom::overlay_rule::OverlayRule;
use overlay_vector::path::VectorShape;
use overlay_vector::vector_shapes::vector_shapes;
use overlay_walk::buffer::BooleanExtractionBuffer;
use std::alloc::{AllocError, Allocator};

impl<I: OverlayInt, A: Allocator + Clone> Overlay<I, A> {
    /// Splits the edges where they meet, as `build_separate_vectors` does, and gives the contours round the region
    /// where the rules hold, as `overlay` does without `options.ogc`, which is not read. They stand in shapes, of each
    /// its outline first, and then its holes. Each contour is the list of its edges in order. Each edge has the sides
    /// that the subject and the clip fill under the rule, seen on the way along the contour.
    ///
    /// Unless `options.preserve_output_collinear`, neighbours on one line that have the same filled sides are
    /// joined to one edge, the last of a contour and its first too. After an answer there is a buffer,
    /// `boolean_buffer`.
    ///
    /// Refusals are those of `build_separate_vectors`.
    pub fn build_shape_vectors(
        &mut self,
        fill_rule: FillRule,
        overlay_rule: OverlayRule,
    ) -> Result<Vec<VectorShape<I, A>, A>, OverlayError>
        ensures answers { BuilderExtracts I.limit self.old self.new result }
        ensures result { IfOk result (λ v. AreShapeVectors
            (asked I.Wide.width I.WideUInt.natural fill_rule overlay_rule self.old.options)
            self.new.edges (plain_vector_shapes I.whole v.items)) }
        ensures given { IfOk result (λ v. WindsRoundGiven
            (asked I.Wide.width I.WideUInt.natural fill_rule overlay_rule self.old.options)
            self.old.solver self.old.edges self.new.edges (steps_along (plain_vector_shapes I.whole v.items))) }
    {
        self.core.arrange(self.solver, &mut ())?;
        let shapes = self.extract_shape_vectors(fill_rule, overlay_rule);
        self.core.set_failed(shapes.is_err());
        Ok(shapes?)
    }

    // The shapes round the region of the arranged edges, as edges. The buffer is there afterwards.
    fn extract_shape_vectors(
        &mut self,
        fill_rule: FillRule,
        overlay_rule: OverlayRule,
    ) -> Result<Vec<VectorShape<I, A>, A>, AllocError>
        requires usable { self.old.failed ≡ false }
        requires ascending { IsAscending self.old.edges }
        requires settled { IsSettled self.old.edges }
        ensures result { IfOk result (λ v. AreShapeVectors
            (asked I.Wide.width I.WideUInt.natural fill_rule overlay_rule self.old.options)
            self.old.edges (plain_vector_shapes I.whole v.items)) }
        ensures kept { self.new ≡ record self.old { boolean_buffer = self.new.boolean_buffer } }
        ensures buffer { OnOk result (self.new.boolean_buffer ≡ Some tt) }
    {
        let graph = self.graph_filled_by(fill_rule)?;
        let mut buffer = BooleanExtractionBuffer::taken_from(
            &mut self.boolean_buffer,
            graph.allocator(),
        )?;
        let shapes = vector_shapes(&graph, overlay_rule, self.options, &mut buffer, &mut ());
        self.boolean_buffer = Some(buffer);
        shapes
    }
}
