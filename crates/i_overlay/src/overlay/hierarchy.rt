//! Overlays that tell which shape lies in which hole.

ghost use Rattle.std.specs.Prelude.{◌≡◌, false, map, Some, IfOk, OnOk};
ghost use Rattle.overlay_order.specs.Content.{IsAscending};
ghost use Rattle.overlay_extract.specs.ChildLinks.{plain_link};
ghost use Rattle.overlay_extract.specs.GivenRegion.{WindsRoundGiven};
ghost use Rattle.overlay_extract.specs.PlacedResults.{IsHierarchy};
ghost use Rattle.overlay_extract.specs.Results.{asked};
ghost use Rattle.overlay_geom.specs.Flat.{shapes_in};
ghost use Rattle.overlay_geom.specs.FlatShapes.{AreShapesPacked};
ghost use Rattle.overlay_geom.specs.Settled.{IsSettled};
ghost use Rattle.overlay_plane.specs.ShapeWindings.{steps_of_shapes};
ghost use Rattle.i_overlay.specs.Queries.{BuilderExtracts};

use crate::overlay::Overlay;
use overlay_extract::hierarchy::{FlatShapeHierarchy, extract_shape_hierarchy};
use overlay_geom::error::OverlayError;
use overlay_geom::fill_rule::FillRule;
use overlay_geom::integer::OverlayInt;
use overlay_geom::overlay_rule::OverlayRule;
use overlay_walk::buffer::BooleanExtractionBuffer;
use std::alloc::{AllocError, Allocator};

impl<I: OverlayInt, A: Allocator + Clone> Overlay<I, A> {
    /// Splits the edges where they meet, and gives the shapes of `overlay` in one list, with a link for each shape that
    /// lies in a hole of another. A link has the number of the other shape, the place of the hole among the contours of
    /// all shapes, and the number of the shape. Links are in order, and no shape is the child of two. `overlay` says
    /// where a contour begins, and what `options.ogc` does to a hole that touches its outline.
    ///
    /// A shape lies in a hole by the next edge below its outline's leftmost lowest point that is filled below. The edge
    /// is one of the hole, or of the outline of another shape that lies in it. Contours are looked at as they are
    /// before points on one line are dropped. After an answer there is a buffer, `boolean_buffer`.
    ///
    /// Refusals are those of `build_separate_vectors`.
    pub fn overlay_hierarchy(
        &mut self,
        overlay_rule: OverlayRule,
        fill_rule: FillRule,
    ) -> Result<FlatShapeHierarchy<I, A>, OverlayError>
        ensures answers { BuilderExtracts I.limit self.old self.new result }
        ensures hierarchy { IfOk result (λ h. IsHierarchy
            (asked I.Wide.width I.WideUInt.natural fill_rule overlay_rule self.old.options) self.new.edges
            (shapes_in I.whole h.shapes.points.items h.shapes.contour_ranges.items h.shapes.shape_ranges.items)
            (map plain_link h.links.items)) }
        ensures given { IfOk result (λ h. WindsRoundGiven
            (asked I.Wide.width I.WideUInt.natural fill_rule overlay_rule self.old.options)
            self.old.solver self.old.edges self.new.edges
            (steps_of_shapes (shapes_in I.whole h.shapes.points.items h.shapes.contour_ranges.items
            h.shapes.shape_ranges.items))) }
        ensures packed { IfOk result
            (λ h. AreShapesPacked h.shapes.points.items h.shapes.contour_ranges.items h.shapes.shape_ranges.items) }
    {
        self.core.arrange(self.solver, &mut ())?;
        let hierarchy = self.extract_hierarchy(overlay_rule, fill_rule);
        self.core.set_failed(hierarchy.is_err());
        Ok(hierarchy?)
    }

    // The shapes round the region of the arranged edges, and their links. The buffer is there afterwards.
    fn extract_hierarchy(
        &mut self,
        overlay_rule: OverlayRule,
        fill_rule: FillRule,
    ) -> Result<FlatShapeHierarchy<I, A>, AllocError>
        requires usable { self.old.failed ≡ false }
        requires ascending { IsAscending self.old.edges }
        requires settled { IsSettled self.old.edges }
        ensures hierarchy { IfOk result (λ h. IsHierarchy
            (asked I.Wide.width I.WideUInt.natural fill_rule overlay_rule self.old.options) self.old.edges
            (shapes_in I.whole h.shapes.points.items h.shapes.contour_ranges.items h.shapes.shape_ranges.items)
            (map plain_link h.links.items)) }
        ensures packed { IfOk result
            (λ h. AreShapesPacked h.shapes.points.items h.shapes.contour_ranges.items h.shapes.shape_ranges.items) }
        ensures kept { self.new ≡ record self.old { boolean_buffer = self.new.boolean_buffer } }
        ensures buffer { OnOk result (self.new.boolean_buffer ≡ Some tt) }
    {
        let graph = self.graph_filled_by(fill_rule)?;
        let mut buffer = BooleanExtractionBuffer::taken_from(
            &mut self.boolean_buffer,
            graph.allocator(),
        )?;
        let hierarchy = extract_shape_hierarchy(&graph, overlay_rule, self.options, &mut buffer);
        self.boolean_buffer = Some(buffer);
        hierarchy
    }
}
