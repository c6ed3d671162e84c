//! What a view of a builder shows: a graph, and the options that the builder had.

ghost use Rattle.std.specs.Prelude.{◌≡◌};
ghost use Rattle.overlay_plane.specs.Balance.{HasBalancedCounts};
ghost use Rattle.overlay_graph.specs.Graphs.{graph_edges};

use overlay_geom::integer::OverlayInt;
use overlay_geom::options::IntOverlayOptions;
use overlay_graph::graph::Graph;
use overlay_order::count::EdgeCount;
use std::alloc::Allocator;
use std::marker::Model;

/// The graph of an arrangement with balanced counts: as many steps of the subject, and of the clip, enter each
/// point as leave it. With it stand the options of its extractions.
#[derive(Drop)]
pub struct ViewedGraph<I: OverlayInt, C: EdgeCount, A: Allocator> {
    graph: Graph<I, C, A>,
    options: IntOverlayOptions<I::WideUInt>,
}

impl<I: OverlayInt, C: EdgeCount, A: Allocator> Model for ViewedGraph<I, C, A> {
    ghost use Rattle.overlay_plane.specs.Balance.{HasBalancedCounts};
    ghost use Rattle.overlay_graph.specs.Graphs.{graph_edges};
    ghost use Rattle.i_overlay.specs.Views.{Viewed};

    ghost Value = { Viewed C I.WideUInt };

    ghost view = { λ v. record { graph = v.graph; options = v.options } };

    ghost invariant = { λ v. HasBalancedCounts (graph_edges v.graph) };
}

impl<I: OverlayInt, C: EdgeCount, A: Allocator> ViewedGraph<I, C, A> {
    /// The graph, whose counts are balanced, with these options.
    pub(crate) fn new(graph: Graph<I, C, A>, options: IntOverlayOptions<I::WideUInt>) -> Self
        requires { HasBalancedCounts (graph_edges graph) }
        ensures { result ≡ record { graph = graph; options = options } }
    {
        ViewedGraph { graph, options }
    }

    /// The graph.
    pub(crate) fn graph(&self) -> &Graph<I, C, A>
        ensures graph { result.now ≡ self.now.graph }
        ensures balanced { HasBalancedCounts (graph_edges self.now.graph) }
    {
        &self.graph
    }

    /// The options.
    pub(crate) fn options(&self) -> IntOverlayOptions<I::WideUInt>
        ensures { result ≡ self.now.options }
    {
        self.options
    }
}
