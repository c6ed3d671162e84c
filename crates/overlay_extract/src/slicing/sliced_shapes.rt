//! The shapes into which the filled region of a graph is sliced.

ghost use Rattle.std.specs.Prelude.{IfOk};
ghost use Rattle.overlay_geom.specs.Paths.{plain_shapes};
ghost use Rattle.overlay_plane.specs.Balance.{HasBalancedCounts};
ghost use Rattle.overlay_graph.specs.Graphs.{graph_edges};
ghost use Rattle.overlay_extract.specs.Sliced.{IsSliced};

use crate::assemble::assembled;
use crate::binding::places::shape_places;
use crate::slicing::direction::bring_in_direction;
use crate::slicing::slices::slice_contours;
use overlay_geom::number::{IntNumber, UIntNumber, WideIntNumber};
use overlay_geom::options::ContourDirection;
use overlay_geom::path::IntShapes;
use overlay_graph::graph::Graph;
use overlay_order::count::EdgeCount;
use std::alloc::{AllocError, Allocator};

/// The shapes into which the region that the subject fills is sliced along the graph's edges: of each shape its
/// outline, and then its holes, both in the order in which they are found. No contour visits a point twice, and points
/// on one line with their neighbours stay. Outlines run in the direction, and holes against it. Contours below the
/// minimum area are left out. The counts of the edges are balanced.
pub fn sliced_shapes<I: IntNumber, C: EdgeCount, A: Allocator + Clone>(
    graph: &Graph<I, C, A>,
    direction: ContourDirection,
    min_output_area: I::WideUInt,
) -> Result<IntShapes<I, A>, AllocError>
    requires { HasBalancedCounts (graph_edges graph.now) }
    ensures sliced { IfOk result (λ v. IsSliced I.Wide.width (I.WideUInt.natural min_output_area) graph.now.fill_rule
        direction (graph_edges graph.now) (plain_shapes I.whole v.items)) }
{
    let slices = slice_contours(graph, min_output_area)?;
    let alloc = graph.allocator().clone()?;
    let places = shape_places(alloc.clone()?, &slices.contours, &slices.shapes)?;
    let mut shapes = assembled(alloc, &slices.contours, &places, true)?;
    bring_in_direction(&mut shapes, direction);
    Ok(shapes)
}
