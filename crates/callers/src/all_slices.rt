//! All shapes into which a graph's shape is sliced.

ghost use Rattle.std.specs.Prelude.{IfOk};
ghost use Rattle.overlay_geom.specs.Paths.{plain_shapes};
ghost use Rattle.overlay_plane.specs.Balance.{HasBalancedCounts};
ghost use Rattle.overlay_graph.specs.Graphs.{graph_edges};
ghost use Rattle.overlay_extract.specs.Sliced.{IsSliced};

use overlay_extract::slicing::sliced_shapes::sliced_shapes;
use overlay_geom::number::{IntNumber, UIntNumber};
use overlay_geom::options::ContourDirection;
use overlay_geom::path::IntShapes;
use overlay_graph::graph::Graph;
use overlay_order::count::EdgeCount;
use std::alloc::{AllocError, Allocator};

/// The shapes of the slices, however small: of each its outline, counterclockwise, and then its holes, clockwise.
pub fn all_slices<I: IntNumber, C: EdgeCount, A: Allocator + Clone>(
    graph: &Graph<I, C, A>,
) -> Result<IntShapes<I, A>, AllocError>
    requires { HasBalancedCounts (graph_edges graph.now) }
    ensures { IfOk result (λ v. IsSliced I.Wide.width 0 graph.now.fill_rule ContourDirection.CounterClockwise
        (graph_edges graph.now) (plain_shapes I.whole v.items)) }
{
    sliced_shapes(
        graph,
        ContourDirection::CounterClockwise,
        I::WideUInt::zero(),
    )
}
