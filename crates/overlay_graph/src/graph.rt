//! The graph of an arrangement: its edges in order, each with its value and its filled sides.

ghost use Rattle.std.specs.Prelude.{◌≡◌, map, length, IfOk};
ghost use Rattle.overlay_geom.specs.Settled.{IsSettled};
ghost use Rattle.overlay_geom.specs.Rules.{fill_bits};
ghost use Rattle.overlay_plane.specs.Balance.{HasBalancedCounts};
ghost use Rattle.overlay_order.specs.Content.{plain_edges, carried_edges, IsContent, IsAscending};
ghost use Rattle.overlay_order.specs.Vectors.{plain_vector, vector_of};
ghost use Rattle.overlay_graph.specs.FillTests.{some_fill_passes, IsFoundUnless};
ghost use Rattle.overlay_graph.specs.Graphs.{graph_edges, carried_vectors, IsArrangement};

use crate::fill::{fills, fills_of_balanced, fills_of_balanced_unless};
use crate::fill_test::FillTest;
use overlay_geom::fill_rule::FillRule;
use overlay_geom::number::IntNumber;
use overlay_order::count::EdgeCount;
use overlay_order::edge::CountedEdge;
use overlay_order::vector::{DataVectorEdge, SideFill};
use std::alloc::{AllocError, Allocator};
use std::marker::Model;

/// The edges of an arrangement in order, each with its value and its filled sides under a fill rule. `Content::graph`
/// makes it once, and extractions read it.
#[derive(Drop)]
pub struct Graph<I: IntNumber, C: EdgeCount, A: Allocator> {
    fill_rule: FillRule,
    // from their smaller to their larger ends
    edges: Vec<DataVectorEdge<I, C>, A>,
}

impl<I: IntNumber, C: EdgeCount, A: Allocator> Model for Graph<I, C, A> {
    ghost use Rattle.std.specs.Prelude.{map};
    ghost use Rattle.overlay_plane.specs.Carried.{edges_in};
    ghost use Rattle.overlay_graph.specs.Graphs.{Graph, carried_vectors, AreFilledBy};

    ghost Value = { Graph C };

    ghost view = { λ g. record {
      fill_rule = g.fill_rule;
      edges = carried_vectors I.whole C.counts g.edges.items;
    } };

    ghost invariant = { λ g. AreFilledBy I.limit g.fill_rule
        (edges_in (carried_vectors I.whole C.counts g.edges.items)) (map (λ v. v.fill) g.edges.items) };
}

impl<I: IntNumber, C: EdgeCount, A: Allocator + Clone> Graph<I, C, A> {
    /// Makes the graph of the edges of an arrangement.
    pub fn new(
        alloc: A,
        edges: &[CountedEdge<I, C>],
        fill_rule: FillRule,
    ) -> Result<Self, AllocError>
        requires content { IsContent I.limit (plain_edges I.whole C.counts edges.now) }
        requires ascending { IsAscending (plain_edges I.whole C.counts edges.now) }
        requires settled { IsSettled (plain_edges I.whole C.counts edges.now) }
        ensures ok { IfOk result (λ g.
            g ≡ record { fill_rule = fill_rule; edges = carried_edges I.whole C.counts edges.now }) }
    {
        let fills = fills(alloc.clone()?, edges, fill_rule)?;
        Graph::filled(alloc, edges, fill_rule, &fills)
    }

    /// Makes the graph of edges with balanced counts. It does not test the balance.
    pub fn of_balanced(
        alloc: A,
        edges: &[CountedEdge<I, C>],
        fill_rule: FillRule,
    ) -> Result<Self, AllocError>
        requires content { IsContent I.limit (plain_edges I.whole C.counts edges.now) }
        requires ascending { IsAscending (plain_edges I.whole C.counts edges.now) }
        requires settled { IsSettled (plain_edges I.whole C.counts edges.now) }
        requires balanced { HasBalancedCounts (plain_edges I.whole C.counts edges.now) }
        ensures ok { IfOk result (λ g.
            g ≡ record { fill_rule = fill_rule; edges = carried_edges I.whole C.counts edges.now }) }
    {
        let fills = fills_of_balanced(alloc.clone()?, edges, fill_rule)?;
        Graph::filled(alloc, edges, fill_rule, &fills)
    }

    /// Makes the graph of edges with balanced counts, unless the filled sides of some edge pass the test. It stops at
    /// the first edge that passes, and does not test the balance.
    pub fn of_balanced_unless<T: FillTest>(
        alloc: A,
        edges: &[CountedEdge<I, C>],
        fill_rule: FillRule,
        test: T,
    ) -> Result<Option<Self>, AllocError>
        requires content { IsContent I.limit (plain_edges I.whole C.counts edges.now) }
        requires ascending { IsAscending (plain_edges I.whole C.counts edges.now) }
        requires settled { IsSettled (plain_edges I.whole C.counts edges.now) }
        requires balanced { HasBalancedCounts (plain_edges I.whole C.counts edges.now) }
        ensures ok { IfOk result (IsFoundUnless
            (some_fill_passes (T.passing test) fill_rule (plain_edges I.whole C.counts edges.now))
            (λ g. g ≡ record { fill_rule = fill_rule; edges = carried_edges I.whole C.counts edges.now })) }
    {
        match fills_of_balanced_unless(alloc.clone()?, edges, fill_rule, test)? {
            Some(fills) => Ok(Some(Graph::filled(alloc, edges, fill_rule, &fills)?)),
            None => Ok(None),
        }
    }

    // Makes the graph of the edges with these filled sides.
    fn filled(
        alloc: A,
        edges: &[CountedEdge<I, C>],
        fill_rule: FillRule,
        fills: &[SideFill],
    ) -> Result<Self, AllocError>
        requires content { IsContent I.limit (plain_edges I.whole C.counts edges.now) }
        requires ascending { IsAscending (plain_edges I.whole C.counts edges.now) }
        requires settled { IsSettled (plain_edges I.whole C.counts edges.now) }
        requires fills { let es = plain_edges I.whole C.counts edges.now in
            fills.now ≡ map (fill_bits fill_rule es) es }
        ensures ok { IfOk result (λ g.
            g ≡ record { fill_rule = fill_rule; edges = carried_edges I.whole C.counts edges.now }) }
    {
        let edges = with_fills(alloc, edges, fills)?;
        Ok(Graph { fill_rule, edges })
    }
}

impl<I: IntNumber, C: EdgeCount, A: Allocator> Graph<I, C, A> {
    /// Returns the edges in order, each from its smaller to its larger end, with its value and its filled sides, seen
    /// in this direction. They are an arrangement.
    pub fn edges(&self) -> &[DataVectorEdge<I, C>]
        ensures carried { carried_vectors I.whole C.counts result.now ≡ self.now.edges }
        ensures filled { map (plain_vector I.whole) result.now
            ≡ map (vector_of self.now.fill_rule (graph_edges self.now)) (graph_edges self.now) }
        ensures arranged { IsArrangement I.limit (graph_edges self.now) }
    {
        &self.edges
    }

    /// Returns the allocator of the edges, which are an arrangement.
    pub fn allocator(&self) -> &A
        ensures arranged { IsArrangement I.limit (graph_edges self.now) }
    {
        self.edges.allocator()
    }
}

impl<I: IntNumber, C: EdgeCount, A: Allocator + Clone> Graph<I, C, A> {
    /// Returns the edges in order with their filled sides, without the values that they carry.
    pub fn separate_vectors(&self) -> Result<Vec<DataVectorEdge<I, ()>, A>, AllocError>
        ensures ok { IfOk result (λ v. map (plain_vector I.whole) v.items
            ≡ map (vector_of self.now.fill_rule (graph_edges self.now)) (graph_edges self.now)) }
    {
        without_data(self.edges.allocator().clone()?, self.edges())
    }
}

// Returns the edges with these filled sides.
fn with_fills<I: IntNumber, C: EdgeCount, A: Allocator>(
    alloc: A,
    edges: &[CountedEdge<I, C>],
    fills: &[SideFill],
) -> Result<Vec<DataVectorEdge<I, C>, A>, AllocError>
    requires { length fills.now ≡ length edges.now }
    ensures edges { IfOk result (λ v.
        carried_vectors I.whole C.counts v.items ≡ carried_edges I.whole C.counts edges.now) }
    ensures fills { IfOk result (λ v. map (λ e. e.fill) v.items ≡ fills.now) }
{
    let mut filled = Vec::with_capacity(alloc, edges.len())?;
    for i in 0..edges.len() {
        filled.push_reserved(DataVectorEdge {
            a: edges[i].a,
            b: edges[i].b,
            fill: fills[i],
            edge_data: edges[i].count,
        });
    }
    Ok(filled)
}

// Returns the edges with their filled sides alone.
fn without_data<I: IntNumber, C: Copy, A: Allocator>(
    alloc: A,
    edges: &[DataVectorEdge<I, C>],
) -> Result<Vec<DataVectorEdge<I, ()>, A>, AllocError>
    ensures ok { IfOk result (λ v. map (plain_vector I.whole) v.items ≡ map (plain_vector I.whole) edges.now) }
{
    let mut vectors = Vec::with_capacity(alloc, edges.len())?;
    for edge in edges {
        vectors.push(DataVectorEdge {
            a: edge.a,
            b: edge.b,
            fill: edge.fill,
            edge_data: (),
        })?;
    }
    Ok(vectors)
}
