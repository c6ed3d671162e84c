//! The contours of an answer, as shapes of edges with data.

ghost use Rattle.std.specs.Prelude.{◌≡◌, Some, IfOk, OnOk, IsErrOf};
ghost use Rattle.overlay_geom.specs.Settled.{IsSettled};
ghost use Rattle.overlay_plane.specs.Balance.{HasBalancedCounts};
ghost use Rattle.overlay_plane.specs.Carried.{edges_in};
ghost use Rattle.overlay_order.specs.Content.{IsAscending};
ghost use Rattle.overlay_parts.specs.Stores.{IsStoreReached};
ghost use Rattle.overlay_builder.specs.GivenPaths.{IsBalancedUnlessFailed};
ghost use Rattle.overlay_builder.specs.Held.{AnswersQuery};
ghost use Rattle.overlay_extract.specs.GivenRegion.{WindsRoundGiven};
ghost use Rattle.overlay_extract.specs.Results.{asked};
ghost use Rattle.overlay_vector.specs.EdgeBuilder.{held_by, IsArrangedWithData};
ghost use Rattle.overlay_vector.specs.VectorShapes.{plain_vector_shapes, steps_along, AreVectorShapes};

use crate::edge_overlay::EdgeOverlay;
use crate::path::DataVectorShape;
use crate::vector_shapes::vector_shapes;
use overlay_geom::error::OverlayError;
use overlay_geom::fill_rule::FillRule;
use overlay_geom::integer::OverlayInt;
use overlay_geom::overlay_rule::OverlayRule;
use overlay_order::data::OverlayEdgeData;
use overlay_walk::buffer::BooleanExtractionBuffer;
use std::alloc::{AllocError, Allocator};

impl<I: OverlayInt, D: OverlayEdgeData, A: Allocator + Clone> EdgeOverlay<I, D, A> {
    /// Splits the edges where they meet, as `build_vectors` does, and gives the contours round the region of
    /// the plane where the rules hold, as shapes: of each its outline first, and then its holes. Shapes and
    /// holes stand in the order in which they are found, from left to right.
    ///
    /// A contour is given by its edges on the way along it. Each has the sides that the subject and the clip fill, as
    /// they are seen on this way, and its data. Where an edge is walked from its larger end its filled sides are turned
    /// round, and its data is `reversed`. Unless `options.preserve_output_collinear`, an edge that goes straight on
    /// from the one before it, with equal filled sides and equal data, is joined with it. So is the first one with the
    /// last. The joined edge has the data of the first of them. A contour may begin anywhere.
    ///
    /// Outlines run in the direction `options.output_direction`, and holes against it. A hole that touches
    /// its outline is a part of it: `options.ogc` is not read. Contours below `options.min_output_area`,
    /// before edges are joined, are left out; of the holes that stay all go to the shape that stays, where it
    /// is the only one; where several stay, each goes to its parent among what is left, and one without a
    /// parent is left out. After an answer there is a buffer, `boolean_buffer`.
    ///
    /// The edges are balanced, as `is_balanced` tells: as many steps of the subject, and of the clip, enter
    /// each point as leave it. A builder that has failed may be asked whatever it holds, and answers `Failed`.
    /// Refusals are those of `build_vectors`.
    #[tactic(auto, using(overlay_parts::proofs::ReachedStores::never_written))]
    pub fn build_vector_shapes(
        &mut self,
        overlay_rule: OverlayRule,
        fill_rule: FillRule,
    ) -> Result<Vec<DataVectorShape<I, D, A>, A>, OverlayError>
        requires { IsBalancedUnlessFailed self.old.failed (edges_in self.old.edges) }
        ensures query { AnswersQuery I.limit self.old.solver (held_by self.old) (held_by self.new) result }
        ensures carried { OnOk result
            (IsArrangedWithData D.merges D.splits D.reverses self.old.solver self.old.edges self.new.edges) }
        ensures shapes { IfOk result (λ v. AreVectorShapes D.reverses D.eq
            (asked I.Wide.width I.WideUInt.natural fill_rule overlay_rule self.old.options)
            self.new.edges (plain_vector_shapes I.whole v.items)) }
        ensures given { IfOk result (λ v. WindsRoundGiven
            (asked I.Wide.width I.WideUInt.natural fill_rule overlay_rule self.old.options)
            self.old.solver (edges_in self.old.edges) (edges_in self.new.edges)
            (steps_along (plain_vector_shapes I.whole v.items))) }
        ensures store { IsStoreReached D.writes self.old.store self.new.store }
        ensures kept { self.new ≡ record self.old {
          edges = self.new.edges;
          boolean_buffer = self.new.boolean_buffer;
          store = self.new.store;
          failed = self.new.failed;
        } }
        ensures untouched { IsErrOf result OverlayError.Failed → self.new ≡ self.old }
        ensures buffer { OnOk result (self.new.boolean_buffer ≡ Some tt) }
    {
        self.core.check_usable()?;
        self.core.arrange(self.solver, &mut self.store)?;
        let shapes = self.extract(overlay_rule, fill_rule);
        self.core.set_failed(shapes.is_err());
        Ok(shapes?)
    }

    // The shapes round the region of the arranged edges. The buffer is there afterwards.
    #[tactic(auto, using(overlay_parts::proofs::ReachedStores::never_written))]
    fn extract(
        &mut self,
        overlay_rule: OverlayRule,
        fill_rule: FillRule,
    ) -> Result<Vec<DataVectorShape<I, D, A>, A>, AllocError>
        requires balanced { HasBalancedCounts (edges_in self.old.edges) }
        requires ascending { IsAscending (edges_in self.old.edges) }
        requires settled { IsSettled (edges_in self.old.edges) }
        ensures shapes { IfOk result (λ v. AreVectorShapes D.reverses D.eq
            (asked I.Wide.width I.WideUInt.natural fill_rule overlay_rule self.old.options)
            self.old.edges (plain_vector_shapes I.whole v.items)) }
        ensures store { IsStoreReached D.writes self.old.store self.new.store }
        ensures kept { self.new ≡ record self.old {
          boolean_buffer = self.new.boolean_buffer;
          store = self.new.store;
        } }
        ensures buffer { OnOk result (self.new.boolean_buffer ≡ Some tt) }
    {
        let graph = self.core.content().graph(fill_rule)?;
        let mut buffer = BooleanExtractionBuffer::taken_from(
            &mut self.boolean_buffer,
            graph.allocator(),
        )?;
        let shapes = vector_shapes(
            &graph,
            overlay_rule,
            self.options,
            &mut buffer,
            &mut self.store,
        );
        self.boolean_buffer = Some(buffer);
        shapes
    }
}
