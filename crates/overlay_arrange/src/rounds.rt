//! Splitting: rounds of merging and cutting, until edges meet in ends alone, or one snap.

ghost use Rattle.std.specs.Prelude.{◌≡◌, ◌≢◌, ◌↔◌, ◌^◌, false, []};
ghost use Rattle.std.specs.Prelude.{Err, None, Some, IfOk, IfErr, IfSome, OnOk, IsErrOf};
ghost use Rattle.overlay_order.specs.Content.{IsAscending, IsContent};
ghost use Rattle.overlay_order.specs.Parting.{MayPart};
ghost use Rattle.overlay_pairs.specs.Changed.{AreOpenIn};
ghost use Rattle.overlay_graph.specs.Arranged.{IsArranged, IsArrangedCarrying, IsSplitCarrying};
ghost use Rattle.overlay_graph.specs.Arranged.{MayRefuseSplitting};
ghost use Rattle.overlay_parts.specs.Stores.{IsStoreReached};
ghost use Rattle.overlay_arrange.specs.Meetings.{plain_meetings, AreMeetings};
ghost use Rattle.overlay_geom.specs.Settled.{IsSettled};
ghost use Rattle.overlay_geom.specs.declared.solver.Solver.TheVariants.{Rounds};
ghost use Rattle.overlay_plane.specs.Carried.{edges_in};
ghost use Rattle.overlay_plane.specs.Arrangements.{IsReachedBy, IsSplit, StaysUnsettled, WeighsTooMuch};

use crate::content::Content;
use crate::limits::most_overlaps;
use crate::meetings::{Gathered, gather};
use crate::settling::{Settling, changes_since};
use overlay_geom::error::OverlayError;
use overlay_geom::number::IntNumber;
use overlay_geom::solver::Solver;
use overlay_order::count::EdgeCount;
use overlay_pairs::settle::count_settled;
use overlay_pairs::strips::strips_of;
use std::alloc::{AllocError, Allocator};

// Number of cutting rounds before the edges are given up as not settled: `most_rounds`.
const ROUNDS: u32 = 64;

impl<I: IntNumber, C: EdgeCount, A: Allocator + Clone> Content<I, C, A> {
    /// Brings the edges into an arrangement. It merges equal edges. Where two different edges meet in a point that is
    /// not an end of both, it leads edges through whole points at most 1/2 away in x and in y. An arrangement stays as
    /// it is.
    ///
    /// `Solver::Rounds` cuts each edge at its meeting points, at most 64 times, and rounds each meeting point to a
    /// whole point. `Solver::Snapping` leads each edge, once, through the hot points whose pixels it meets, if some
    /// point has to be rounded.
    ///
    /// The values that edges carry follow: they are merged two by two where equal edges become one. They are split once
    /// for each round that cuts an edge into two or more pieces, and reversed where a piece runs against its edge.
    ///
    /// Returns whether a round cut the edges. If none did, edges that were not equal met in ends alone before.
    ///
    /// Refusals leave the content open: `NotSettled` where the edges are not settled after 64 rounds, `TooManyEdges`
    /// where a round brings the weight to 2^31, and `Memory`. An arrangement is refused only by `Memory`. `NotSettled`
    /// never comes by `Solver::Snapping`, nor where edges meet only in whole points or overlap.
    pub fn arrange(&mut self, solver: Solver, store: &mut C::Store) -> Result<bool, OverlayError>
        ensures arranged { OnOk result (IsArranged solver (edges_in self.old) (edges_in self.new)) }
        ensures carried { OnOk result (IsArrangedCarrying C.merges C.splits C.reverses solver self.old self.new) }
        ensures cut { IfOk result (λ is_cut. (is_cut ≡ false)
            ↔ IsReachedBy solver [] (edges_in self.old) (edges_in self.new)) }
        ensures content { IsContent I.limit (edges_in self.new) }
        ensures store { IsStoreReached C.writes store.old store.new }
        ensures err { IfErr result (MayRefuseSplitting solver (edges_in self.old)) }
    {
        match solver {
            Solver::Rounds => self.split(ROUNDS, store),
            Solver::Snapping => self.snap(store),
        }
    }

    /// Merges the edges and cuts them, at most `rounds` times, until they are settled. Returns whether it cut them. A
    /// refusal leaves the content open.
    pub fn split(&mut self, rounds: u32, store: &mut C::Store) -> Result<bool, OverlayError>
        ensures split { OnOk result (IsSplit Rounds rounds (edges_in self.old) (edges_in self.new)) }
        ensures carried { OnOk result (IsSplitCarrying C.merges C.splits C.reverses Rounds rounds self.old self.new) }
        ensures cut { IfOk result (λ is_cut. (is_cut ≡ false)
            ↔ IsReachedBy Rounds [] (edges_in self.old) (edges_in self.new)) }
        ensures before { IsContent I.limit (edges_in self.old) }
        ensures content { IsContent I.limit (edges_in self.new) }
        ensures store { IsStoreReached C.writes store.old store.new }
        ensures not_settled { IsErrOf result OverlayError.NotSettled → StaysUnsettled rounds (edges_in self.old) }
        ensures too_many { IsErrOf result OverlayError.TooManyEdges
            → WeighsTooMuch Rounds rounds (2 ^ 31) (edges_in self.old) }
        ensures usable { result ≢ Err OverlayError.Failed }
    {
        self.split_since(rounds, None, store)
    }

    /// Splits the edges as `split` does. Where the list before the last cut is known, pairs that met in ends alone are
    /// not tested again.
    fn split_since(
        &mut self,
        rounds: u32,
        before: Option<Settling<I, C, A>>,
        store: &mut C::Store,
    ) -> Result<bool, OverlayError>
        requires { IfSome before (λ s. AreOpenIn (edges_in s.edges) s.is_open.items) }
        ensures split { OnOk result (IsSplit Rounds rounds (edges_in self.old) (edges_in self.new)) }
        ensures carried { OnOk result (IsSplitCarrying C.merges C.splits C.reverses Rounds rounds self.old self.new) }
        ensures cut { IfOk result (λ is_cut. (is_cut ≡ false)
            ↔ IsReachedBy Rounds [] (edges_in self.old) (edges_in self.new)) }
        ensures before { IsContent I.limit (edges_in self.old) }
        ensures content { IsContent I.limit (edges_in self.new) }
        ensures store { IsStoreReached C.writes store.old store.new }
        ensures not_settled { IsErrOf result OverlayError.NotSettled → StaysUnsettled rounds (edges_in self.old) }
        ensures too_many { IsErrOf result OverlayError.TooManyEdges
            → WeighsTooMuch Rounds rounds (2 ^ 31) (edges_in self.old) }
        ensures usable { result ≢ Err OverlayError.Failed }
    {
        self.merge_runs(store)?;
        let Some(gathered) = self.open_meetings(before)? else {
            return Ok(false);
        };
        if rounds == 0 {
            return Err(OverlayError::NotSettled);
        }
        let meetings = self.meetings_of(gathered, store)?;
        let is_open = meetings.is_open;
        let (is_rounded, edges) = self.cut_at(meetings.all, &meetings.hidden, store)?;
        if is_rounded {
            self.split_since(rounds - 1, Some(Settling { edges, is_open }), store)?;
            return Ok(true);
        }
        // (no point was rounded, so the pieces meet in ends alone)
        self.merge_runs(store)?;
        Ok(true)
    }

    /// Returns the whole points through which the edges lead each other, and marks of open edges; or neither where many
    /// edges overlap, so that they are parted first. Returns None where any two different edges meet in ends alone. The
    /// record of the list before is dropped. The edges ascend, as they do once merged.
    pub(crate) fn open_meetings(
        &self,
        before: Option<Settling<I, C, A>>,
    ) -> Result<Option<Option<Gathered<I, A>>>, AllocError>
        requires ascending { IsAscending (edges_in self.now) }
        requires before { IfSome before (λ s. AreOpenIn (edges_in s.edges) s.is_open.items) }
        ensures settled { IfOk result (λ found. (found ≡ None) ↔ IsSettled (edges_in self.now)) }
        ensures ok { IfOk result (λ found. IfSome found (λ gathered. IfSome gathered (λ g.
            AreMeetings (edges_in self.now) (plain_meetings I.whole g.0.items)))) }
        ensures open { IfOk result (λ found. IfSome found (λ gathered. IfSome gathered (λ g.
            AreOpenIn (edges_in self.now) g.1.items))) }
        ensures may { IfOk result (λ found. found ≡ Some None → MayPart C.merges C.splits C.reverses) }
    {
        let edges = self.edges();
        let changed = changes_since(self.allocator().clone()?, edges, &before)?;
        let strips = strips_of(self.allocator().clone()?, edges)?;
        let count = count_settled(self.allocator().clone()?, edges, &strips, &changed)?;
        if count == edges.len() {
            return Ok(None);
        }
        // (the edges before `count` meet all others in ends alone, and such meetings change nothing)
        let gathered = gather(
            self.allocator().clone()?,
            edges,
            &strips,
            &changed,
            count,
            most_overlaps::<C>(edges.len()),
        )?;
        Ok(Some(gathered))
    }
}
