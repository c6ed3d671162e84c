//! The shapes that both subject and clip fill.

ghost use Rattle.std.specs.Prelude.{IfOk};
ghost use Rattle.overlay_geom.specs.Paths.{plain_shapes};
ghost use Rattle.overlay_plane.specs.Balance.{HasBalancedCounts};
ghost use Rattle.overlay_graph.specs.Graphs.{graph_edges};
ghost use Rattle.overlay_extract.specs.Results.{asked, IsResult};

use overlay_extract::extract::extract_shapes;
use overlay_geom::number::IntNumber;
use overlay_geom::options::IntOverlayOptions;
use overlay_geom::overlay_rule::OverlayRule;
use overlay_geom::path::IntShapes;
use overlay_graph::graph::Graph;
use overlay_order::count::EdgeCount;
use overlay_walk::buffer::BooleanExtractionBuffer;
use std::alloc::{AllocError, Allocator};

/// The shapes that both the subject and the clip fill.
pub fn common_shapes<I: IntNumber, C: EdgeCount, A: Allocator + Clone>(
    graph: &Graph<I, C, A>,
    options: IntOverlayOptions<I::WideUInt>,
    buffer: &mut BooleanExtractionBuffer<I, A>,
) -> Result<IntShapes<I, A>, AllocError>
    requires { HasBalancedCounts (graph_edges graph.now) }
    ensures { IfOk result (λ v. IsResult
        (asked I.Wide.width I.WideUInt.natural graph.now.fill_rule OverlayRule.Intersect options)
        (graph_edges graph.now) (plain_shapes I.whole v.items)) }
{
    extract_shapes(graph, OverlayRule::Intersect, options, buffer)
}
