//! Parcels: shapes of which no two cover one point.

ghost use Rattle.std.specs.Prelude.{◌≡◌, map, IfOk};
ghost use Rattle.overlay_geom.specs.Edges.{ends_of};
ghost use Rattle.overlay_geom.specs.Paths.{plain_shapes};
ghost use Rattle.overlay_geom.specs.Plane.{PlanePoint, IsOff};
ghost use Rattle.overlay_plane.specs.Balance.{HasBalancedCounts};
ghost use Rattle.overlay_plane.specs.ShapesAlone.{EachWindsOnceOrNot};
ghost use Rattle.overlay_graph.specs.Graphs.{graph_edges};
ghost use Rattle.overlay_walk.specs.Steps.{filled_hand};
ghost use Rattle.overlay_extract.specs.Laws.{NoTwoWindRound};

use overlay_extract::extract::extract_shapes;
use overlay_extract::laws::no_two_shapes_wind_round_one_point;
use overlay_geom::number::{IntNumber, UIntNumber};
use overlay_geom::options::IntOverlayOptions;
use overlay_geom::overlay_rule::OverlayRule;
use overlay_geom::path::IntShapes;
use overlay_graph::graph::Graph;
use overlay_order::count::EdgeCount;
use overlay_walk::buffer::BooleanExtractionBuffer;
use std::alloc::{AllocError, Allocator};

/// The shapes that the subject fills, of any area: each by itself winds once, in the output direction, or zero times
/// round each point, and no two of them wind round one point off the edges.
pub fn parcels<I: IntNumber, C: EdgeCount, A: Allocator + Clone>(
    graph: &Graph<I, C, A>,
    options: IntOverlayOptions<I::WideUInt>,
    buffer: &mut BooleanExtractionBuffer<I, A>,
) -> Result<IntShapes<I, A>, AllocError>
    requires balanced { HasBalancedCounts (graph_edges graph.now) }
    requires all { I.WideUInt.natural options.min_output_area ≡ 0 }
    ensures alone { IfOk result
        (λ v. EachWindsOnceOrNot (filled_hand options.output_direction) (plain_shapes I.whole v.items)) }
    ensures apart { IfOk result (λ v. (p : PlanePoint) → IsOff (map ends_of (graph_edges graph.now)) p →
        NoTwoWindRound (plain_shapes I.whole v.items) p) }
{
    no_two_shapes_wind_round_one_point();
    extract_shapes(graph, OverlayRule::Subject, options, buffer)
}
