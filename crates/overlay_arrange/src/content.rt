//! The counted edges that a builder holds, and their weight.

ghost use Rattle.std.specs.Prelude.{◌≡◌, ◌↔◌, ◌+◌, ◌^◌, ◌<◌, ◌≤◌, ◌⊎◌, [], ◌∷◌, ◌++◌, map, length, take};
ghost use Rattle.std.specs.Prelude.{IfOk, IfErr, OnOk, OnErr, IsErrOf, IsTrue};
ghost use Rattle.overlay_geom.specs.Edges.{weight};
ghost use Rattle.overlay_geom.specs.Merged.{IsMerged};
ghost use Rattle.overlay_geom.specs.Settled.{IsSettled};
ghost use Rattle.overlay_geom.specs.Counts.{weight_of_counts};
ghost use Rattle.overlay_plane.specs.Balance.{HasBalancedCounts};
ghost use Rattle.overlay_plane.specs.Carried.{edges_in};
ghost use Rattle.overlay_plane.specs.DerivedData.{CarriesMerged};
ghost use Rattle.overlay_order.specs.Content.{plain_edge, plain_edges};
ghost use Rattle.overlay_order.specs.Content.{carried_edge, carried_edges};
ghost use Rattle.overlay_order.specs.Content.{IsAscending, IsContent, IsHeld};
ghost use Rattle.overlay_order.specs.EdgeData.{IsReversedBy};
ghost use Rattle.overlay_graph.specs.FillTests.{some_fill_passes, IsFoundUnless};
ghost use Rattle.overlay_parts.specs.Stores.{IsStoreReached};
ghost use Rattle.overlay_arrange.specs.Batches.{StandFor};

use crate::merge::{join_runs, merge, merge_runs, weight_of, weight_unless};
use overlay_geom::error::OverlayError;
use overlay_geom::fill_rule::FillRule;
use overlay_geom::number::IntNumber;
use overlay_graph::fill_test::FillTest;
use overlay_graph::graph::Graph;
use overlay_order::count::EdgeCount;
use overlay_order::edge::CountedEdge;
use std::alloc::{AllocError, Allocator};
use std::marker::Model;

// Upper bound of the weight of a content, which it does not reach.
const WEIGHT_LIMIT: u32 = 1 << 31;

/// Counted edges in the coordinate range that weigh less than 2^31.
#[derive(Drop)]
pub struct Content<I: IntNumber, C: EdgeCount, A: Allocator> {
    edges: Vec<CountedEdge<I, C>, A>,
    // the sum of the absolute counts
    weight: u32,
}

impl<I: IntNumber, C: EdgeCount, A: Allocator> Model for Content<I, C, A> {
    ghost use Rattle.std.specs.Prelude.{List};
    ghost use Rattle.overlay_plane.specs.Carried.{Carried};
    ghost use Rattle.overlay_order.specs.Content.{plain_edges, carried_edges, IsWeighed};

    ghost Value = { List (Carried C) };

    ghost view = { λ c. carried_edges I.whole C.counts c.edges.items };

    ghost invariant = { λ c. IsWeighed I.limit (plain_edges I.whole C.counts c.edges.items) c.weight };
}

impl<I: IntNumber, C: EdgeCount, A: Allocator> Content<I, C, A> {
    /// Makes a content without edges, with room for `capacity` edges.
    pub fn with_capacity(alloc: A, capacity: usize) -> Result<Self, AllocError>
        ensures empty { IfOk result (λ c. c ≡ []) }
    {
        Ok(Content {
            edges: Vec::with_capacity(alloc, capacity)?,
            weight: 0,
        })
    }

    /// Drops all edges. It takes no memory.
    pub fn clear(&mut self)
        ensures { self.new ≡ [] }
    {
        self.edges.clear();
        self.weight = 0;
    }

    /// Returns the number of edges.
    pub fn len(&self) -> usize
        ensures { result ≡ length self.now }
    {
        self.edges.len()
    }

    /// Drops all edges but the first `count`.
    pub fn truncate(&mut self, count: usize)
        ensures { self.new ≡ take count self.old }
    {
        self.edges.truncate(count);
        self.weight = weight_of(&self.edges);
    }

    /// Returns the allocator of the edges.
    pub fn allocator(&self) -> &A {
        self.edges.allocator()
    }

    /// Adds an edge, or nothing on a refusal. Its counts weigh less than 2^31.
    pub fn push(&mut self, edge: CountedEdge<I, C>) -> Result<(), OverlayError>
        requires held { IsHeld I.limit (plain_edge I.whole C.counts edge) }
        requires light { weight_of_counts (C.counts edge.count) < 2 ^ 31 }
        ensures ok { OnOk result (self.new ≡ self.old ++ carried_edge I.whole C.counts edge ∷ []) }
        ensures content { IsContent I.limit (edges_in self.new) }
        ensures err { OnErr result (self.new ≡ self.old) }
        ensures too_many { IsErrOf result OverlayError.TooManyEdges
            → 2 ^ 31 ≤ weight (edges_in self.old ++ plain_edge I.whole C.counts edge ∷ []) }
        ensures only { IfErr result (λ e. (e ≡ OverlayError.Memory) ⊎ (e ≡ OverlayError.TooManyEdges)) }
    {
        let added = edge.count.weight();
        if reaches_limit(self.weight, added) {
            return Err(OverlayError::TooManyEdges);
        }
        self.edges.push(edge)?;
        self.weight += added;
        Ok(())
    }

    /// Adds an edge that carries the reverse of the value of `edge`. On a refusal it adds nothing and does not call the
    /// store. The counts weigh less than 2^31.
    pub fn push_reversed(
        &mut self,
        edge: CountedEdge<I, C>,
        store: &mut C::Store,
    ) -> Result<(), OverlayError>
        requires held { IsHeld I.limit (plain_edge I.whole C.counts edge) }
        requires light { weight_of_counts (C.counts edge.count) < 2 ^ 31 }
        ensures ok { OnOk result ((turned : C) × IsReversedBy C.counts C.reverses edge.count turned
            × (self.new ≡ self.old ++ carried_edge I.whole C.counts (record edge { count = turned }) ∷ [])) }
        ensures writes { OnOk result (C.writes store.old store.new) }
        ensures content { IsContent I.limit (edges_in self.new) }
        ensures err { OnErr result (self.new ≡ self.old) }
        ensures untouched { OnErr result (store.new ≡ store.old) }
        ensures too_many { IsErrOf result OverlayError.TooManyEdges
            → 2 ^ 31 ≤ weight (edges_in self.old ++ plain_edge I.whole C.counts edge ∷ []) }
        ensures only { IfErr result (λ e. (e ≡ OverlayError.Memory) ⊎ (e ≡ OverlayError.TooManyEdges)) }
    {
        let added = edge.count.weight();
        if reaches_limit(self.weight, added) {
            return Err(OverlayError::TooManyEdges);
        }
        self.edges.reserve(1)?;
        let count = edge.count.reversed(store);
        self.edges.push_reserved(CountedEdge {
            a: edge.a,
            b: edge.b,
            count,
        });
        self.weight += added;
        Ok(())
    }

    /// Merges equal edges: sums their counts and merges their data. Then it drops edges without counts and sorts the
    /// rest. If memory is refused the content is left open.
    pub fn merge(&mut self, store: &mut C::Store) -> Result<(), AllocError>
        ensures ok { OnOk result (IsMerged (edges_in self.old) (edges_in self.new)) }
        ensures carried { OnOk result (CarriesMerged C.merges self.old self.new) }
        ensures content { IsContent I.limit (edges_in self.new) }
        ensures store { IsStoreReached C.writes store.old store.new }
    {
        let merged = merge(&mut self.edges, store);
        self.weight = weight_of(&self.edges);
        merged
    }

    /// Merges equal edges as `merge` does, in less time where the edges are few runs dealt out among each other.
    pub(crate) fn merge_runs(&mut self, store: &mut C::Store) -> Result<(), AllocError>
    where
        A: Clone,
        ensures ok { OnOk result (IsMerged (edges_in self.old) (edges_in self.new)) }
        ensures carried { OnOk result (CarriesMerged C.merges self.old self.new) }
        ensures before { IsContent I.limit (edges_in self.old) }
        ensures content { IsContent I.limit (edges_in self.new) }
        ensures store { IsStoreReached C.writes store.old store.new }
    {
        let count = self.edges.len();
        let merged = merge_runs(&mut self.edges, store);
        self.weight = weight_unless(&self.edges, count, self.weight);
        merged
    }

    /// Joins equal edges as `merge` does, and drops none. If memory is refused the edges are in some order.
    pub(crate) fn join_runs(&mut self, store: &mut C::Store) -> Result<(), AllocError>
    where
        A: Clone,
        ensures ok { OnOk result (StandFor C.merges self.old self.new) }
        ensures content { IsContent I.limit (edges_in self.new) }
        ensures lighter { weight (edges_in self.new) ≤ weight (edges_in self.old) }
        ensures store { IsStoreReached C.writes store.old store.new }
    {
        let joined = join_runs(&mut self.edges, store);
        self.weight = weight_of(&self.edges);
        joined
    }

    /// Returns the weight of the edges.
    pub(crate) fn weight(&self) -> u32
        ensures weight { result ≡ weight (edges_in self.now) }
        ensures light { result < 2 ^ 31 }
    {
        self.weight
    }

    /// Returns the edges, each from its smaller to its larger end, in the coordinate range.
    pub fn edges(&self) -> &[CountedEdge<I, C>]
        ensures edges { carried_edges I.whole C.counts result.now ≡ self.now }
        ensures plain { plain_edges I.whole C.counts result.now ≡ edges_in self.now }
        ensures content { IsContent I.limit (edges_in self.now) }
    {
        &self.edges
    }

    /// Makes the graph of the edges under a fill rule. The edges are an arrangement.
    pub fn graph(&self, fill_rule: FillRule) -> Result<Graph<I, C, A>, AllocError>
    where
        A: Clone,
        requires ascending { IsAscending (edges_in self.now) }
        requires settled { IsSettled (edges_in self.now) }
        ensures ok { IfOk result (λ g. g ≡ record { fill_rule = fill_rule; edges = self.now }) }
    {
        Graph::new(self.edges.allocator().clone()?, &self.edges, fill_rule)
    }

    /// Makes the graph of the edges with balanced counts, without testing the balance. The counts of closed contours
    /// and of their arrangements are balanced: at each point equally many steps enter and leave.
    pub fn graph_of_balanced(&self, fill_rule: FillRule) -> Result<Graph<I, C, A>, AllocError>
    where
        A: Clone,
        requires ascending { IsAscending (edges_in self.now) }
        requires settled { IsSettled (edges_in self.now) }
        requires balanced { HasBalancedCounts (edges_in self.now) }
        ensures ok { IfOk result (λ g. g ≡ record { fill_rule = fill_rule; edges = self.now }) }
    {
        Graph::of_balanced(self.edges.allocator().clone()?, &self.edges, fill_rule)
    }

    /// Makes the graph of the edges as `graph_of_balanced` does, unless the filled sides of some edge pass the test. It
    /// stops at the first edge that passes.
    pub fn graph_of_balanced_unless<T: FillTest>(
        &self,
        fill_rule: FillRule,
        test: T,
    ) -> Result<Option<Graph<I, C, A>>, AllocError>
    where
        A: Clone,
        requires ascending { IsAscending (edges_in self.now) }
        requires settled { IsSettled (edges_in self.now) }
        requires balanced { HasBalancedCounts (edges_in self.now) }
        ensures ok { IfOk result (IsFoundUnless
            (some_fill_passes (T.passing test) fill_rule (edges_in self.now))
            (λ g. g ≡ record { fill_rule = fill_rule; edges = self.now })) }
    {
        let alloc = self.edges.allocator().clone()?;
        Graph::of_balanced_unless(alloc, &self.edges, fill_rule, test)
    }
}

/// Returns whether a content of this weight reaches the limit with an added weight.
pub(crate) fn reaches_limit(weight: u32, added: u32) -> bool
    requires { weight < 2 ^ 31 }
    ensures { IsTrue result ↔ 2 ^ 31 ≤ weight + added }
{
    added >= WEIGHT_LIMIT - weight
}
