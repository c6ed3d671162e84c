//! Edges with data that are added to a builder.

ghost use Rattle.std.specs.Prelude.{◌≡◌, ◌↔◌, ◌⊎◌, ◌^◌, ◌<◌, true, All};
ghost use Rattle.std.specs.Prelude.{IfErr, OnOk, OnErr, IsErrOf};
ghost use Rattle.std.specs.Iterator.{IsFinite, HoldsAlong};
ghost use Rattle.overlay_geom.specs.Edges.{weight};
ghost use Rattle.overlay_geom.specs.Points.{plain_point};
ghost use Rattle.overlay_plane.specs.Carried.{edges_in};
ghost use Rattle.overlay_parts.specs.Stores.{IsStoreReached};
ghost use Rattle.overlay_builder.specs.AddedSteps.{LeavesStore};
ghost use Rattle.overlay_builder.specs.BuilderCalls.{AddsOneAsAsked};
ghost use Rattle.overlay_builder.specs.PathLists.{carried_weight};
ghost use Rattle.overlay_vector.specs.AddedEdges.{passed_once, AddsAllGiven, AddsEdge, EdgeWeighsTooMuch};
ghost use Rattle.overlay_vector.specs.AddedEdges.{IsEdgeInRange, StopsAtEdge};
ghost use Rattle.overlay_vector.specs.EdgeBuilder.{held_with_data};

use crate::edge_overlay::{EdgeOverlay, ShapeType};
use crate::input_edge::InputEdge;
use overlay_builder::boolean::passing;
use overlay_geom::error::OverlayError;
use overlay_geom::integer::OverlayInt;
use overlay_order::data::{CountWithData, OverlayEdgeData};
use std::alloc::Allocator;

impl<I: OverlayInt, D: OverlayEdgeData, A: Allocator> EdgeOverlay<I, D, A> {
    /// Adds an edge of the subject, or of the clip, from a to b, with its data. It is held from its smaller
    /// to its larger end; where these are exchanged, it holds the reversed of its data, and else the store
    /// stays. An edge between equal points is none. Both ends are in the coordinate range.
    ///
    /// Refusals, which leave the builder and its store as they were: `Failed` before anything else,
    /// `TooManyEdges` where the weight would come to 2^31, `Memory`. Room is taken before the data is
    /// reversed.
    pub fn add_edge(
        &mut self,
        edge: InputEdge<I, D>,
        shape_type: ShapeType,
    ) -> Result<(), OverlayError>
        requires { IsEdgeInRange I.whole I.limit edge }
        ensures added { AddsOneAsAsked carried_weight (AddsEdge I.whole shape_type D.reverses edge)
            (EdgeWeighsTooMuch I.whole shape_type edge) (held_with_data self.old) (held_with_data self.new) result }
        ensures store { OnOk result (LeavesStore D.writes (plain_point I.whole edge.a) (plain_point I.whole edge.b)
            self.old.store self.new.store) }
        ensures kept { self.new ≡ record self.old { edges = self.new.edges; store = self.new.store } }
        ensures err { OnErr result (self.new ≡ self.old) }
    {
        let given = passed_once(shape_type, edge.edge_data);
        self.core.add_step(edge.a, edge.b, given, &mut self.store)
    }

    /// Adds the edges that the iterator gives, in order, each as `add_edge` does. It ends, and both ends of
    /// each edge are in the coordinate range.
    ///
    /// Refusals: `Failed` before anything else, and then nothing is changed and the iterator is not asked;
    /// `TooManyEdges` at an edge that would bring the weight to 2^31; `Memory` at some edge, it is not
    /// said which. After these two exactly the edges before that one are added.
    pub fn add_edges<P: Iterator<Item = InputEdge<I, D>> + Drop>(
        &mut self,
        iter: P,
        shape_type: ShapeType,
    ) -> Result<(), OverlayError>
        requires can { P.can_next iter }
        requires ends { IsFinite (P.remaining iter) }
        requires in_range { HoldsAlong P.next_gives iter (All (IsEdgeInRange I.whole I.limit)) }
        ensures ok { OnOk result (AddsAllGiven I.whole shape_type D.reverses P.next_gives iter
            self.old.edges self.new.edges) }
        ensures store { IsStoreReached D.writes self.old.store self.new.store }
        ensures light { OnOk result (weight (edges_in self.new.edges) < 2 ^ 31) }
        ensures kept { self.new ≡ record self.old { edges = self.new.edges; store = self.new.store } }
        ensures failed { IsErrOf result OverlayError.Failed ↔ (self.old.failed ≡ true) }
        ensures untouched { IsErrOf result OverlayError.Failed → self.new ≡ self.old }
        ensures err { IfErr result (λ e. (e ≡ OverlayError.Failed)
            ⊎ StopsAtEdge I.whole shape_type D.reverses P.next_gives iter self.old.edges self.new.edges e) }
    {
        self.core.check_usable()?;
        for edge in iter {
            self.add_edge(edge, shape_type)?;
        }
        Ok(())
    }
}

// What a step of the subject, or of the clip, with this data makes its edge carry where it runs along it.
fn passed_once<D: OverlayEdgeData>(shape_type: ShapeType, edge_data: D) -> CountWithData<D>
    ensures { result ≡ passed_once shape_type edge_data }
{
    CountWithData {
        count: passing(shape_type).along,
        edge_data,
    }
}
