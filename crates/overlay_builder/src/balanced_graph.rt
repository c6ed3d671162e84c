//! The graph of an arrangement with balanced counts.

ghost use Rattle.std.specs.Prelude.{◌≡◌};
ghost use Rattle.overlay_plane.specs.Balance.{HasBalancedCounts};
ghost use Rattle.overlay_graph.specs.Graphs.{graph_edges};

use overlay_geom::integer::OverlayInt;
use overlay_graph::graph::Graph;
use overlay_order::count::EdgeCount;
use std::alloc::Allocator;
use std::marker::Model;

/// The graph of an arrangement with balanced counts: at each point, equally many steps of the subject enter and leave,
/// and equally many of the clip. Marks of strings are not counts.
#[derive(Drop)]
pub struct BalancedGraph<I: OverlayInt, C: EdgeCount, A: Allocator> {
    graph: Graph<I, C, A>,
}

impl<I: OverlayInt, C: EdgeCount, A: Allocator> Model for BalancedGraph<I, C, A> {
    ghost use Rattle.overlay_plane.specs.Balance.{HasBalancedCounts};
    ghost use Rattle.overlay_graph.specs.Graphs.{Graph, graph_edges};

    ghost Value = { Graph C };

    ghost view = { λ b. b.graph };

    ghost invariant = { λ b. HasBalancedCounts (graph_edges b.graph) };
}

impl<I: OverlayInt, C: EdgeCount, A: Allocator> BalancedGraph<I, C, A> {
    /// Wraps the graph, whose counts are balanced.
    pub fn new(graph: Graph<I, C, A>) -> Self
        requires { HasBalancedCounts (graph_edges graph) }
        ensures { result ≡ graph }
    {
        BalancedGraph { graph }
    }

    /// Returns the graph.
    pub fn graph(&self) -> &Graph<I, C, A>
        ensures graph { result.now ≡ self.now }
        ensures balanced { HasBalancedCounts (graph_edges self.now) }
    {
        &self.graph
    }
}
