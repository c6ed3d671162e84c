//! Snap rounding: edges that meet elsewhere than in ends are each led, once, through the hot points whose pixels they
//! meet.

ghost use Rattle.std.specs.Prelude.{◌≡◌, ◌⊎◌, ◌↔◌, ◌^◌, false, [], IfOk, IfErr, OnOk, OnErr, IsErrOf};
ghost use Rattle.overlay_geom.specs.Points.{plain_points};
ghost use Rattle.overlay_geom.specs.declared.solver.Solver.TheVariants.{Snapping};
ghost use Rattle.overlay_plane.specs.Arrangements.{IsReachedBy, IsSplit, WeighsTooMuch};
ghost use Rattle.overlay_plane.specs.Carried.{edges_in};
ghost use Rattle.overlay_order.specs.Content.{IsAscending, IsContent};
ghost use Rattle.overlay_graph.specs.Arranged.{IsSplitCarrying};
ghost use Rattle.overlay_parts.specs.Stores.{IsStoreReached};
ghost use Rattle.overlay_arrange.specs.HotPoints.{AreHotPoints};
ghost use Rattle.overlay_arrange.specs.Meetings.{plain_meetings, AreMeetings};
ghost use Rattle.overlay_arrange.specs.Snapping.{ArePartsLedHeavy, ArePartsLedOnce};

use crate::content::Content;
use crate::hot::hot_points;
use crate::meetings::Meeting;
use crate::snap::snap_edges;
use crate::whole::are_whole;
use overlay_geom::error::OverlayError;
use overlay_geom::number::IntNumber;
use overlay_geom::point::IntPoint;
use overlay_order::count::EdgeCount;
use std::alloc::{AllocError, Allocator};

impl<I: IntNumber, C: EdgeCount, A: Allocator + Clone> Content<I, C, A> {
    /// Merges the edges, and returns false where they then meet in ends alone. Otherwise it leads each edge through
    /// whole points, merges the pieces, which meet in ends alone, and returns true. Where all meeting points are whole,
    /// each edge is led through its meeting points; else through the hot points whose pixels it meets.
    ///
    /// Refusals leave the content open: `TooManyEdges` where the pieces weigh 2^31, and `Memory`.
    pub(crate) fn snap(&mut self, store: &mut C::Store) -> Result<bool, OverlayError>
        ensures split { OnOk result (IsSplit Snapping 1 (edges_in self.old) (edges_in self.new)) }
        ensures carried { OnOk result (IsSplitCarrying C.merges C.splits C.reverses Snapping 1 self.old self.new) }
        ensures cut { IfOk result (λ is_cut. (is_cut ≡ false)
            ↔ IsReachedBy Snapping [] (edges_in self.old) (edges_in self.new)) }
        ensures before { IsContent I.limit (edges_in self.old) }
        ensures content { IsContent I.limit (edges_in self.new) }
        ensures store { IsStoreReached C.writes store.old store.new }
        ensures too_many { IsErrOf result OverlayError.TooManyEdges
            → WeighsTooMuch Snapping 1 (2 ^ 31) (edges_in self.old) }
        ensures only { IfErr result (λ e. (e ≡ OverlayError.Memory) ⊎ (e ≡ OverlayError.TooManyEdges)) }
    {
        self.merge_runs(store)?;
        let Some(gathered) = self.open_meetings(None)? else {
            return Ok(false);
        };
        let meetings = self.meetings_of(gathered, store)?;
        self.lead_once(meetings.all, &meetings.hidden, store)?;
        self.merge_runs(store)?;
        Ok(true)
    }

    /// Leads each edge through whole points, once. Where all meeting points are whole, it takes the edge's meeting
    /// points; else the hot points whose pixels it meets. The edges ascend, and the meetings are theirs. A refusal
    /// leaves the content as it was.
    #[tactic(auto, using(overlay_parts::proofs::ReachedStores::never_written))]
    fn lead_once(
        &mut self,
        meetings: Vec<Meeting<I>, A>,
        hidden: &[u32],
        store: &mut C::Store,
    ) -> Result<(), OverlayError>
        requires ascending { IsAscending (edges_in self.old) }
        requires meetings { AreMeetings (edges_in self.old) (plain_meetings I.whole meetings.items) }
        ensures ok { OnOk result (ArePartsLedOnce C.merges C.splits C.reverses hidden.now self.old self.new) }
        ensures err { OnErr result (self.new ≡ self.old) }
        ensures store { IsStoreReached C.writes store.old store.new }
        ensures too_many { IsErrOf result OverlayError.TooManyEdges
            → ArePartsLedHeavy (2 ^ 31) hidden.now self.old }
        ensures only { IfErr result (λ e. (e ≡ OverlayError.Memory) ⊎ (e ≡ OverlayError.TooManyEdges)) }
    {
        if are_whole(self.edges(), &meetings) {
            self.cut_through(meetings, hidden, store)?;
            return Ok(());
        }
        let hot = self.hot_of(meetings)?;
        let alloc = self.allocator().clone()?;
        *self = snap_edges(alloc, self.edges(), &hot, hidden, store)?;
        Ok(())
    }

    /// Returns the hot points of the edges. The given meetings of the edges are dropped.
    fn hot_of(&self, meetings: Vec<Meeting<I>, A>) -> Result<Vec<IntPoint<I>, A>, AllocError>
        requires { AreMeetings (edges_in self.now) (plain_meetings I.whole meetings.items) }
        ensures ok { IfOk result (λ hot. AreHotPoints (edges_in self.now) (plain_points I.whole hot.items)) }
    {
        hot_points(self.allocator().clone()?, self.edges(), &meetings)
    }
}
