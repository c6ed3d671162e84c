//! What a builder for edges with data holds.

ghost use Rattle.std.specs.Prelude.{◌≡◌, ◌↔◌, map, IsTrue};
ghost use Rattle.overlay_geom.specs.Points.{plain_points};
ghost use Rattle.overlay_plane.specs.Balance.{HasBalancedCounts};
ghost use Rattle.overlay_plane.specs.Carried.{edges_in};
ghost use Rattle.overlay_vector.specs.HeldEdges.{ends_of_held};

use crate::balance::is_balanced;
use crate::edge_overlay::EdgeOverlay;
use crate::edges::Edges;
use overlay_geom::integer::OverlayInt;
use overlay_order::data::OverlayEdgeData;
use std::alloc::Allocator;

impl<I: OverlayInt, D: OverlayEdgeData, A: Allocator> EdgeOverlay<I, D, A> {
    /// The edges that the builder holds, in their order, each as its smaller and its larger end. After a
    /// query these are those of the arrangement. It takes no memory.
    pub fn edges(&self) -> Edges<'_, I, D>
        ensures { map (plain_points I.whole) result ≡ map ends_of_held self.now.edges }
    {
        Edges::new(self.core.content().edges())
    }

    /// Returns whether the edges are balanced: as many steps of the subject enter each point as leave it, and as
    /// many of the clip. It takes no memory, and time with the square of the number of edges.
    pub fn is_balanced(&self) -> bool
        ensures { IsTrue result ↔ HasBalancedCounts (edges_in self.now.edges) }
    {
        is_balanced(self.core.content().edges())
    }
}
