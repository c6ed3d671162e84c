//! Pieces of edges, gathered edge by edge. Where they are many, equal pieces are joined on the way, in batches.

ghost use Rattle.std.specs.Prelude.{◌≡◌, ◌⊎◌, ◌+◌, ◌^◌, ◌<◌, ◌≤◌, ◌++◌, ◌∷◌, [], map, length};
ghost use Rattle.std.specs.Prelude.{◌*◌, slice_index_or, IfOk, IfErr, OnOk, IsErrOf};
ghost use Rattle.overlay_geom.specs.Counts.{weight_of_counts};
ghost use Rattle.overlay_geom.specs.Edges.{weight};
ghost use Rattle.overlay_geom.specs.Plane.{steps_through};
ghost use Rattle.overlay_geom.specs.Points.{plain_points, AllInRange};
ghost use Rattle.overlay_plane.specs.Carried.{edges_in};
ghost use Rattle.overlay_plane.specs.Cutting.{piece_along};
ghost use Rattle.overlay_plane.specs.DerivedData.{GivesPiece};
ghost use Rattle.overlay_order.specs.Content.{plain_edge, carried_edge, IsHeld};
ghost use Rattle.overlay_parts.specs.Stores.{IsStoreReached};
ghost use Rattle.overlay_arrange.specs.Batches.{AddsJoined, StandFor};
ghost use Rattle.overlay_arrange.specs.Cut.{StaysWhole};

use crate::content::{Content, reaches_limit};
use crate::cut::push_pieces;
use crate::limits::next_limit;
use overlay_geom::error::OverlayError;
use overlay_geom::number::IntNumber;
use overlay_geom::point::IntPoint;
use overlay_order::count::EdgeCount;
use overlay_order::edge::CountedEdge;
use std::alloc::{AllocError, Allocator};

// How many times as long a list with few equal pieces may grow before they are joined again.
const MOST_GROWTH: usize = 8;
// Weight of pieces that are too many.
const HEAVY: u64 = 1 << 31;

/// Pieces of edges. Equal pieces may be joined.
#[derive(Drop)]
pub(crate) struct Pieces<I: IntNumber, C: EdgeCount, A: Allocator> {
    /// The pieces.
    pub content: Content<I, C, A>,
    /// The weight that joining took away, and the weight of edges that pieces stand for.
    pub away: u32,
    /// Least number of pieces from which on equal ones are joined.
    pub least: usize,
    /// Number of pieces from which on equal ones are joined next.
    pub most: usize,
}

impl<I: IntNumber, C: EdgeCount, A: Allocator + Clone> Pieces<I, C, A> {
    /// Makes an empty list of pieces, with room for `room` of them. Equal pieces are joined from `least` of them on.
    pub(crate) fn new(alloc: A, room: usize, least: usize) -> Result<Self, AllocError>
        ensures empty { IfOk result (λ p. p.content ≡ []) }
        ensures none { IfOk result (λ p. p.away ≡ 0) }
    {
        Ok(Pieces {
            content: Content::with_capacity(alloc, room.min(least))?,
            away: 0,
            least,
            most: least,
        })
    }

    /// Adds the pieces of an edge along the chain from its smaller to its larger end through the points. Each piece
    /// stands for edges that weigh `hidden` more. Then it joins equal pieces, if there are many pieces.
    #[tactic(auto, using(overlay_parts::proofs::ReachedStores::never_written))]
    pub(crate) fn add(
        &mut self,
        e: &CountedEdge<I, C>,
        points: &[IntPoint<I>],
        hidden: u32,
        store: &mut C::Store,
    ) -> Result<(), OverlayError>
        requires held { IsHeld I.limit (plain_edge I.whole C.counts e.now) }
        requires light { weight_of_counts (C.counts e.now.count) < 2 ^ 31 }
        requires points { AllInRange I.limit (plain_points I.whole points.now) }
        ensures carried { let whole = plain_edge I.whole C.counts e.now in
            OnOk result (AddsJoined C.merges (GivesPiece C.splits C.reverses
            (StaysWhole whole (plain_points I.whole points.now)) (carried_edge I.whole C.counts e.now))
            (steps_through whole.a (plain_points I.whole points.now ++ whole.b ∷ []))
            self.old.content self.new.content) }
        ensures weighed { let whole = plain_edge I.whole C.counts e.now in
            OnOk result (weight (edges_in self.new.content) + self.new.away ≡ weight (edges_in self.old.content
            ++ map (piece_along whole) (steps_through whole.a (plain_points I.whole points.now ++ whole.b ∷ [])))
            + self.old.away
            + hidden * length (steps_through whole.a (plain_points I.whole points.now ++ whole.b ∷ []))) }
        ensures light { OnOk result (weight (edges_in self.new.content) + self.new.away < 2 ^ 31) }
        ensures store { IsStoreReached C.writes store.old store.new }
        ensures too_many { let whole = plain_edge I.whole C.counts e.now in
            IsErrOf result OverlayError.TooManyEdges → 2 ^ 31 ≤ weight (edges_in self.old.content
            ++ map (piece_along whole) (steps_through whole.a (plain_points I.whole points.now ++ whole.b ∷ [])))
            + self.old.away
            + hidden * length (steps_through whole.a (plain_points I.whole points.now ++ whole.b ∷ [])) }
        ensures only { IfErr result (λ e. (e ≡ OverlayError.Memory) ⊎ (e ≡ OverlayError.TooManyEdges)) }
    {
        let count = self.content.len();
        push_pieces(&mut self.content, e, points, store)?;
        let added = self.content.len() - count;
        self.put_away(hidden, added)?;
        if reaches_limit(self.content.weight(), self.away) {
            return Err(OverlayError::TooManyEdges);
        }
        self.join_if_many(store)?;
        Ok(())
    }

    /// Counts the hidden weight of some pieces of an edge as taken away.
    fn put_away(&mut self, hidden: u32, count: usize) -> Result<(), OverlayError>
        ensures pieces { self.new.content ≡ self.old.content }
        ensures ok { OnOk result (self.new.away ≡ self.old.away + hidden * count) }
        ensures too_many { IsErrOf result OverlayError.TooManyEdges → 2 ^ 31 ≤ self.old.away + hidden * count }
        ensures only { IfErr result (λ e. e ≡ OverlayError.TooManyEdges) }
    {
        let weight = (hidden as u64)
            .saturating_mul(count as u64)
            .saturating_add(self.away as u64);
        if weight >= HEAVY {
            return Err(OverlayError::TooManyEdges);
        }
        self.away = weight as u32;
        Ok(())
    }

    /// Joins equal pieces, if there are many pieces.
    #[tactic(auto, using(overlay_parts::proofs::ReachedStores::never_written))]
    fn join_if_many(&mut self, store: &mut C::Store) -> Result<(), AllocError>
        requires { weight (edges_in self.old.content) + self.old.away < 2 ^ 31 }
        ensures ok { OnOk result (StandFor C.merges self.old.content self.new.content) }
        ensures weighed { OnOk result (weight (edges_in self.new.content) + self.new.away
            ≡ weight (edges_in self.old.content) + self.old.away) }
        ensures store { IsStoreReached C.writes store.old store.new }
    {
        let count = self.content.len();
        if count < self.most {
            return Ok(());
        }
        let weight = self.content.weight();
        self.content.join_runs(store)?;
        self.away += weight - self.content.weight();
        self.most = next_limit(count, self.content.len(), self.least, MOST_GROWTH);
        Ok(())
    }
}

/// Returns the hidden weight of the edge at place i, or 0 where no edge has any.
pub(crate) fn hidden_at(hidden: &[u32], i: usize) -> u32
    ensures { result ≡ slice_index_or hidden.now i 0 }
{
    if i < hidden.len() { hidden[i] } else { 0 }
}
