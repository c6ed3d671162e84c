//! The vertical edges of a contour, and the right ends of its other edges.

ghost use Rattle.std.specs.Prelude.{◌≡◌, ◌↔◌, IsTrue, map, All, IfOk};
ghost use Rattle.std.specs.Ordering.{is_lt};
ghost use Rattle.overlay_geom.specs.Plane.{edge_lt};
ghost use Rattle.overlay_geom.specs.Points.{plain_point};
ghost use Rattle.overlay_geom.specs.Resolved.{plain_edge, plain_edges, IsLongEdge};
ghost use Rattle.overlay_relate.specs.Walls.{wall_of, AreWalls, AreContourWalls};
ghost use Rattle.overlay_relate.specs.Walls.{starts_up_to, IsOnSomeWall};
ghost use Rattle.overlay_relate.specs.Sweeps.{AreOfContour};

use overlay_geom::edge::{IntEdge, compare_points};
use overlay_geom::number::IntNumber;
use overlay_geom::point::IntPoint;
use std::alloc::{AllocError, Allocator};
use std::cmp::Ordering;

/// The vertical edges, and the right end of each other edge as an edge from it to itself, by their lower ends and then
/// by their upper ones.
pub(crate) fn walls_of<I: IntNumber, A: Allocator>(
    alloc: A,
    edges: &[IntEdge<I>],
) -> Result<Vec<IntEdge<I>, A>, AllocError>
    ensures walls { IfOk result (λ v. AreWalls (plain_edges I.whole edges.now) (plain_edges I.whole v.items)) }
{
    let mut walls = Vec::with_capacity(alloc, edges.len())?;
    for e in edges {
        walls.push(wall_of(e))?;
    }
    walls.sort_by(|v, w| compare_walls(v, w))?;
    Ok(walls)
}

/// The edge, if it is vertical, else its right end.
fn wall_of<I: IntNumber>(e: &IntEdge<I>) -> IntEdge<I>
    ensures { plain_edge I.whole result ≡ wall_of (plain_edge I.whole e.now) }
{
    if e.a.x.compare(e.b.x).is_lt() {
        IntEdge { a: e.b, b: e.b }
    } else {
        IntEdge { a: e.a, b: e.b }
    }
}

/// Returns how two walls compare: by their lower ends, then by their upper ones.
fn compare_walls<I: IntNumber>(v: &IntEdge<I>, w: &IntEdge<I>) -> Ordering
    ensures { is_lt result ≡ edge_lt (plain_edge I.whole v.now) (plain_edge I.whole w.now) }
{
    match compare_points(v.a, w.a) {
        Ordering::Equal => compare_points(v.b, w.b),
        other => other,
    }
}

/// Returns whether the point is on one of the walls of a contour.
pub(crate) fn is_on_wall<I: IntNumber>(walls: &[IntEdge<I>], p: IntPoint<I>) -> bool
    requires { AreContourWalls (plain_edges I.whole walls.now) }
    ensures { IsTrue result ↔ IsOnSomeWall (plain_edges I.whole walls.now) (plain_point I.whole p) }
{
    let n = walls.partition_point(
        |w: &IntEdge<I>| -> bool
            ensures { result ≡ starts_up_to (plain_point I.whole p) (plain_edge I.whole w.now) }
        { !compare_points(p, w.a).is_lt() },
    );
    if n == 0 {
        return false;
    }
    let last = &walls[n - 1];
    !compare_points(last.b, p).is_lt()
}
