//! Ends that the borders of two shapes share.

ghost use Rattle.std.specs.Prelude.{◌≡◌, ◌++◌, ◌↔◌, map, flat_map, IsTrue, IfOk, OnOk};
ghost use Rattle.overlay_order.specs.Vectors.{plain_vector};
ghost use Rattle.overlay_geom.specs.Rules.{is_filled};
ghost use Rattle.overlay_graph.specs.Graphs.{graph_edges};
ghost use Rattle.overlay_plane.specs.EdgePredicates.{HasSharedEnd};
ghost use Rattle.overlay_relate.specs.EdgeTests.{plain_end, plain_ends, border_ends, differ, some_next_differ};

use crate::border_end::BorderEnd;
use overlay_geom::edge::compare_points;
use overlay_geom::number::IntNumber;
use overlay_graph::graph::Graph;
use overlay_order::count::EdgeCount;
use overlay_order::vector::{CLIP_LEFT, CLIP_RIGHT, DataVectorEdge, SUBJ_LEFT, SUBJ_RIGHT};
use std::alloc::{AllocError, Allocator};

/// Returns whether some point is an end of an edge that the subject alone fills on one side alone, and of an edge that
/// the clip alone fills so. It fails where memory runs out.
pub fn has_shared_end<I: IntNumber, C: EdgeCount, A: Allocator + Clone>(
    graph: &Graph<I, C, A>,
) -> Result<bool, AllocError>
    ensures ok { IfOk result (λ b. IsTrue b ↔ HasSharedEnd (is_filled graph.now.fill_rule) (graph_edges graph.now)) }
{
    let mut ends = ends_of_borders(graph.allocator().clone()?, graph.edges())?;
    ends.sort_by(|m, n| compare_points(m.point, n.point))?;
    Ok(some_next_differs(&ends))
}

// The ends of all edges of which one shape alone fills one side alone.
fn ends_of_borders<I: IntNumber, D: Copy, A: Allocator>(
    alloc: A,
    edges: &[DataVectorEdge<I, D>],
) -> Result<Vec<BorderEnd<I>, A>, AllocError>
    ensures ok { IfOk result (λ v. plain_ends I.whole v.items
        ≡ flat_map border_ends (map (plain_vector I.whole) edges.now)) }
{
    let mut ends = Vec::new(alloc);
    for number in 0..edges.len() {
        push_border(&mut ends, edges[number])?;
    }
    Ok(ends)
}

// Adds the ends of the edge, if one shape alone fills one side of it alone.
fn push_border<I: IntNumber, D: Copy, A: Allocator>(
    ends: &mut Vec<BorderEnd<I>, A>,
    edge: DataVectorEdge<I, D>,
) -> Result<(), AllocError>
    ensures ok { OnOk result (plain_ends I.whole ends.new.items
        ≡ plain_ends I.whole ends.old.items ++ border_ends (plain_vector I.whole edge)) }
{
    let of_subj = edge.fill == SUBJ_LEFT || edge.fill == SUBJ_RIGHT;
    let of_clip = edge.fill == CLIP_LEFT || edge.fill == CLIP_RIGHT;
    if of_subj || of_clip {
        ends.push(BorderEnd {
            point: edge.a,
            of_subj,
        })?;
        ends.push(BorderEnd {
            point: edge.b,
            of_subj,
        })?;
    }
    Ok(())
}

// Whether some end is at the point of the one before it, and of the other shape.
fn some_next_differs<I: IntNumber>(ends: &[BorderEnd<I>]) -> bool
    ensures { result ≡ some_next_differ (plain_ends I.whole ends.now) }
{
    if ends.is_empty() {
        return false;
    }
    let mut last = ends[0];
    for number in 0..ends.len() {
        let end = ends[number];
        if differs(last, end) {
            return true;
        }
        last = end;
    }
    false
}

// Whether the two ends are at one point, the one of the subject and the other of the clip.
fn differs<I: IntNumber>(m: BorderEnd<I>, n: BorderEnd<I>) -> bool
    ensures { result ≡ differ (plain_end I.whole m) (plain_end I.whole n) }
{
    compare_points(m.point, n.point).is_eq() && m.of_subj != n.of_subj
}
