//! Slices: the loops of a graph's filled sides as contours of shapes.

ghost use Rattle.std.specs.Prelude.{All, IfOk};
ghost use Rattle.overlay_plane.specs.Balance.{HasBalancedCounts};
ghost use Rattle.overlay_plane.specs.BoundContours.{walks_in};
ghost use Rattle.overlay_graph.specs.Graphs.{graph_edges};
ghost use Rattle.overlay_extract.specs.Slices.{AreSliceContours, AreSlices};
ghost use Rattle.overlay_walk.specs.GroupedContours.{plain_contours};
ghost use Rattle.overlay_walk.specs.Steps.{IsLong};

use crate::binding::bind::bind_from;
use crate::limits::TREE_FROM_PARENTS;
use crate::slicing::loops::filled_loops;
use crate::slicing::roles::contours_of_loops;
use overlay_geom::number::{IntNumber, UIntNumber, WideIntNumber};
use overlay_geom::options::ContourDirection;
use overlay_graph::graph::Graph;
use overlay_order::count::EdgeCount;
use overlay_walk::area::large_walks;
use overlay_walk::contour::Contour;
use std::alloc::{AllocError, Allocator};

/// Contours, and for each the number of the shape that is found for it, if it is a hole.
#[derive(Drop)]
pub struct SliceContours<I, A: Allocator> {
    /// The contours, as they are found, each with its filled side on the left.
    pub contours: Vec<Contour<I, A>, A>,
    /// The numbers of the shapes.
    pub shapes: Vec<Option<usize>, A>,
}

/// The contours of the slices of the graph's filled region: the loops into which its filled sides are cut, as far as
/// they reach the minimum area, and the shapes to which the holes among them are bound. The counts of the edges are
/// balanced.
pub fn slice_contours<I: IntNumber, C: EdgeCount, A: Allocator + Clone>(
    graph: &Graph<I, C, A>,
    min_output_area: I::WideUInt,
) -> Result<SliceContours<I, A>, AllocError>
    requires { HasBalancedCounts (graph_edges graph.now) }
    ensures slices { IfOk result (λ s. AreSlices I.Wide.width (I.WideUInt.natural min_output_area)
        graph.now.fill_rule (graph_edges graph.now) (plain_contours I.whole s.contours.items) s.shapes.items) }
    ensures long { IfOk result
        (λ s. All (All (IsLong I.limit)) (walks_in (plain_contours I.whole s.contours.items))) }
{
    let contours = kept_loops(graph, min_output_area)?;
    let alloc = graph.allocator().clone()?;
    let direction = ContourDirection::CounterClockwise;
    let shapes = bind_from(alloc, &contours, direction, TREE_FROM_PARENTS)?;
    Ok(SliceContours { contours, shapes })
}

// The loops that reach the minimum area, as contours.
fn kept_loops<I: IntNumber, C: EdgeCount, A: Allocator + Clone>(
    graph: &Graph<I, C, A>,
    min_output_area: I::WideUInt,
) -> Result<Vec<Contour<I, A>, A>, AllocError>
    requires { HasBalancedCounts (graph_edges graph.now) }
    ensures contours { IfOk result (λ cs. AreSliceContours I.Wide.width (I.WideUInt.natural min_output_area)
        graph.now.fill_rule (graph_edges graph.now) (plain_contours I.whole cs.items)) }
    ensures long { IfOk result (λ cs. All (All (IsLong I.limit)) (walks_in (plain_contours I.whole cs.items))) }
{
    let loops = filled_loops(graph)?;
    let large = large_walks(graph.allocator().clone()?, loops, min_output_area)?;
    let contours = contours_of_loops(graph.allocator().clone()?, large)?;
    Ok(contours)
}
