//! The edges of a contour in the order in which a sweep comes to them.

ghost use Rattle.std.specs.Prelude.{◌≡◌, ◌++◌, All, filter, IfOk, OnOk};
ghost use Rattle.std.specs.Ordering.{is_lt};
ghost use Rattle.overlay_geom.specs.Resolved.{plain_edge, plain_edges, IsLongEdge};
ghost use Rattle.overlay_plane.specs.Anchors.{is_anchored_before};
ghost use Rattle.overlay_relate.specs.Sweeps.{wide_edge, wide_edges, is_wide};
ghost use Rattle.overlay_relate.specs.Sweeps.{AreByStart, AreOfContour};

use crate::wide_edge::WideEdge;
use overlay_geom::edge::{IntEdge, compare_points};
use overlay_geom::number::{IntNumber, WideIntNumber};
use overlay_geom::vector::cross_at;
use std::alloc::{AllocError, Allocator};
use std::cmp::Ordering;

/// The edges that are not vertical by their left ends, and those from one point from the lower slope to the higher one.
pub(crate) fn edges_by_start<I: IntNumber, A: Allocator>(
    alloc: A,
    edges: &[IntEdge<I>],
) -> Result<Vec<WideEdge<I>, A>, AllocError>
    requires edges { All (IsLongEdge I.limit) (plain_edges I.whole edges.now) }
    requires contour { AreOfContour (plain_edges I.whole edges.now) }
    ensures order { IfOk result (λ v. AreByStart (plain_edges I.whole edges.now) (wide_edges I.whole v.items)) }
{
    let mut wide = wide_ones(alloc, edges)?;
    wide.sort_by(|e, f| compare_starts(e, f))?;
    Ok(wide)
}

/// The edges that are not vertical, in their order.
fn wide_ones<I: IntNumber, A: Allocator>(
    alloc: A,
    edges: &[IntEdge<I>],
) -> Result<Vec<WideEdge<I>, A>, AllocError>
    requires { All (IsLongEdge I.limit) (plain_edges I.whole edges.now) }
    ensures ok { IfOk result (λ v. wide_edges I.whole v.items ≡ filter is_wide (plain_edges I.whole edges.now)) }
{
    let mut wide = Vec::new(alloc);
    for e in edges {
        if e.a.x.compare(e.b.x).is_lt() {
            wide.push(WideEdge { a: e.a, b: e.b })?;
        }
    }
    Ok(wide)
}

/// `Less` exactly where the first edge starts before the second: by their left ends, and from one point
/// by their slopes.
fn compare_starts<I: IntNumber>(e: &WideEdge<I>, f: &WideEdge<I>) -> Ordering
    ensures { is_lt result ≡ is_anchored_before (wide_edge I.whole e.now) (wide_edge I.whole f.now) }
{
    match compare_points(e.a, f.a) {
        Ordering::Equal => cross_at(e.a, f.b, e.b).sign(),
        other => other,
    }
}
