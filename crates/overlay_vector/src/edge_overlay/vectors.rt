//! The edges of an answer, as vectors with data.

ghost use Rattle.std.specs.Prelude.{◌≡◌, IfOk, OnOk, IsErrOf};
ghost use Rattle.overlay_geom.specs.Settled.{IsSettled};
ghost use Rattle.overlay_plane.specs.Carried.{edges_in};
ghost use Rattle.overlay_order.specs.Content.{IsAscending};
ghost use Rattle.overlay_parts.specs.Stores.{IsStoreReached};
ghost use Rattle.overlay_builder.specs.Held.{AnswersQuery};
ghost use Rattle.overlay_vector.specs.DataVectors.{plain_data_vectors, selected_vectors};
ghost use Rattle.overlay_vector.specs.EdgeBuilder.{held_by, IsArrangedWithData};

use crate::edge_overlay::EdgeOverlay;
use crate::selected_vectors::selected_vectors;
use overlay_geom::error::OverlayError;
use overlay_geom::fill_rule::FillRule;
use overlay_geom::integer::OverlayInt;
use overlay_geom::overlay_rule::OverlayRule;
use overlay_order::data::OverlayEdgeData;
use overlay_order::vector::DataVectorEdge;
use std::alloc::{AllocError, Allocator};

impl<I: OverlayInt, D: OverlayEdgeData, A: Allocator + Clone> EdgeOverlay<I, D, A> {
    /// Splits the edges where they meet, and gives those with the region of the rules on exactly one side, in order, by
    /// the smaller and then the larger end. Each runs from its smaller to its larger end. It has the sides that the
    /// subject and the clip fill under the rule, seen on this way, and its data.
    ///
    /// The edges are split by `solver`. By `Solver::ABSOLUTE` equal edges are merged in each round, and each
    /// edge is cut where others meet it; a meeting point that is not whole is rounded to one whole point, at
    /// most 1/2 away in x and in y. By `Solver::SNAPPED` each edge is led, once, through the hot points whose
    /// pixels it meets. The data of equal edges is merged, two by two; that of an edge that is cut into two
    /// pieces or more is split, once for each piece, and that of a piece which runs against its edge is
    /// reversed. What was arranged before, by either solver, stays as it is. The edges need not be balanced:
    /// the winding below an edge is the sum of the counts strictly below its midpoint.
    ///
    /// Refusals: `Failed` before anything else, and then nothing is changed; `NotSettled` (never with
    /// `Solver::SNAPPED`) where edges still meet in points that are no ends of both after 64 rounds;
    /// `TooManyEdges` where a round brings the weight to 2^31; `Memory`. After these three the builder has
    /// failed, and what it holds is left open.
    #[tactic(auto, using(overlay_parts::proofs::ReachedStores::never_written))]
    pub fn build_vectors(
        &mut self,
        overlay_rule: OverlayRule,
        fill_rule: FillRule,
    ) -> Result<Vec<DataVectorEdge<I, D>, A>, OverlayError>
        ensures query { AnswersQuery I.limit self.old.solver (held_by self.old) (held_by self.new) result }
        ensures carried { OnOk result
            (IsArrangedWithData D.merges D.splits D.reverses self.old.solver self.old.edges self.new.edges) }
        ensures listed { IfOk result (λ v. plain_data_vectors I.whole v.items
            ≡ selected_vectors fill_rule overlay_rule self.new.edges) }
        ensures store { IsStoreReached D.writes self.old.store self.new.store }
        ensures kept { self.new ≡ record self.old {
          edges = self.new.edges;
          store = self.new.store;
          failed = self.new.failed;
        } }
        ensures untouched { IsErrOf result OverlayError.Failed → self.new ≡ self.old }
    {
        self.core.check_usable()?;
        self.core.arrange(self.solver, &mut self.store)?;
        let listed = self.list(overlay_rule, fill_rule);
        self.core.set_failed(listed.is_err());
        Ok(listed?)
    }

    // The selected edges of the arranged ones.
    fn list(
        &self,
        overlay_rule: OverlayRule,
        fill_rule: FillRule,
    ) -> Result<Vec<DataVectorEdge<I, D>, A>, AllocError>
        requires ascending { IsAscending (edges_in self.now.edges) }
        requires settled { IsSettled (edges_in self.now.edges) }
        ensures listed { IfOk result (λ v. plain_data_vectors I.whole v.items
            ≡ selected_vectors fill_rule overlay_rule self.now.edges) }
    {
        let graph = self.core.content().graph(fill_rule)?;
        selected_vectors(&graph, overlay_rule)
    }
}
