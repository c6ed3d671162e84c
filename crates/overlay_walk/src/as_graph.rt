//! A graph, or a reference to one.

ghost use Rattle.std.specs.Prelude.{◌≡◌, map};
ghost use Rattle.overlay_order.specs.Vectors.{plain_vector, vector_of};
ghost use Rattle.overlay_graph.specs.Graphs.{Graph, graph_edges, IsArrangement};

use overlay_geom::number::IntNumber;
use overlay_graph::graph::Graph;
use overlay_order::count::EdgeCount;
use overlay_order::vector::DataVectorEdge;
use std::alloc::Allocator;

/// A graph, or a reference to one. An extraction drops it as soon as it has read the edges: a graph then gives its
/// memory back, and what a reference leads to stays.
pub trait AsGraph<I: IntNumber, A: Allocator> {
    /// The data of the edges.
    type Count: EdgeCount;

    // The graph.
    ghost graph: { Self → Graph Self.Count };

    /// Returns the edges in order, as `Graph::edges` does.
    fn edges(&self) -> &[DataVectorEdge<I, Self::Count>]
        ensures filled { map (plain_vector I.whole) result.now
            ≡ map (vector_of (graph self.now).fill_rule (graph_edges (graph self.now)))
            (graph_edges (graph self.now)) }
        ensures arranged { IsArrangement I.limit (graph_edges (graph self.now)) };

    /// Returns the allocator of the edges.
    fn allocator(&self) -> &A
        ensures arranged { IsArrangement I.limit (graph_edges (graph self.now)) };
}

impl<I: IntNumber, C: EdgeCount, A: Allocator> AsGraph<I, A> for Graph<I, C, A> {
    type Count = C;

    ghost graph = { λ g. g };

    fn edges(&self) -> &[DataVectorEdge<I, C>] {
        Graph::edges(self)
    }

    fn allocator(&self) -> &A {
        Graph::allocator(self)
    }
}

impl<'a, I: IntNumber, C: EdgeCount, A: Allocator> AsGraph<I, A> for &'a Graph<I, C, A> {
    type Count = C;

    ghost graph = { λ g. g.now };

    fn edges(&self) -> &[DataVectorEdge<I, C>] {
        Graph::edges(*self)
    }

    fn allocator(&self) -> &A {
        Graph::allocator(*self)
    }
}
