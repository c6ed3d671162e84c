//! Whether a contour is resolved, by its edges in ascending order.

ghost use Rattle.std.specs.Prelude.{◌≡◌, ◌↔◌, All, IsTrue, IfOk, IsOkUnless};
ghost use Rattle.std.specs.List.Sorted.{IsPermutation};
ghost use Rattle.overlay_geom.specs.Points.{plain_points, AllInRange};
ghost use Rattle.overlay_geom.specs.Resolved.{plain_edges, IsLongEdge, AreApart, IsResolved};
ghost use Rattle.overlay_order.specs.Content.{IsAscending};
ghost use Rattle.overlay_parts.specs.EdgeOrder.{IsInOrder};
ghost use Rattle.overlay_relate.specs.Resolved.{edges_once, ends_once};

use crate::contour_edges::contour_edges;
use overlay_geom::edge::IntEdge;
use overlay_geom::error::OverlayError;
use overlay_geom::number::IntNumber;
use overlay_geom::point::IntPoint;
use overlay_order::count::ShapeCountBoolean;
use overlay_order::edge::{CountedEdge, compare_edges};
use overlay_pairs::settle::is_settled;
use std::alloc::{AllocError, Allocator};

/// Returns whether two steps at different places of the contour never share a point that isn't an end of both: so
/// for no points, true. The points are in range. It tells what `overlay_geom::resolved::is_resolved` does, but
/// takes memory, and sorts the edges of the steps to look at near ones alone. The only refusal is `Memory`.
pub fn is_resolved_in<I: IntNumber, A: Allocator + Clone>(
    alloc: A,
    contour: &[IntPoint<I>],
) -> Result<bool, OverlayError>
    requires { AllInRange I.limit (plain_points I.whole contour.now) }
    ensures ok { IfOk result (λ b. IsTrue b ↔ IsResolved (plain_points I.whole contour.now)) }
    ensures err { IsOkUnless result OverlayError.Memory }
{
    let edges = contour_edges(alloc.clone()?, contour)?;
    let sorted = sorted_edges(alloc.clone()?, &edges)?;
    Ok(are_apart(alloc, &sorted)?)
}

/// Returns whether edges in order, equal ones side by side, meet in ends alone. Two equal ones do not.
fn are_apart<I: IntNumber, A: Allocator + Clone>(
    alloc: A,
    edges: &[CountedEdge<I, ShapeCountBoolean>],
) -> Result<bool, AllocError>
    requires long { All (IsLongEdge I.limit) (ends_once I.whole edges.now) }
    requires order { IsInOrder (edges_once I.whole edges.now) }
    ensures ok { IfOk result (λ b. IsTrue b ↔ AreApart (ends_once I.whole edges.now)) }
{
    if ascend(edges) {
        is_settled(alloc, edges)
    } else {
        Ok(false)
    }
}

/// Returns whether each edge comes before the next one.
fn ascend<I: IntNumber>(edges: &[CountedEdge<I, ShapeCountBoolean>]) -> bool
    ensures { IsTrue result ↔ IsAscending (edges_once I.whole edges.now) }
{
    for i in 1..edges.len() {
        if !compare_edges(&edges[i - 1], &edges[i]).is_lt() {
            return false;
        }
    }
    true
}

/// The edges in ascending order, equal ones side by side.
fn sorted_edges<I: IntNumber, A: Allocator>(
    alloc: A,
    edges: &[IntEdge<I>],
) -> Result<Vec<CountedEdge<I, ShapeCountBoolean>, A>, AllocError>
    ensures same { IfOk result (λ v. IsPermutation (plain_edges I.whole edges.now) (ends_once I.whole v.items)) }
    ensures order { IfOk result (λ v. IsInOrder (edges_once I.whole v.items)) }
{
    let mut sorted = counted_once(alloc, edges)?;
    sorted.sort_by(|e, f| compare_edges(e, f))?;
    Ok(sorted)
}

/// The edges, each passed once by the subject.
fn counted_once<I: IntNumber, A: Allocator>(
    alloc: A,
    edges: &[IntEdge<I>],
) -> Result<Vec<CountedEdge<I, ShapeCountBoolean>, A>, AllocError>
    ensures ok { IfOk result (λ v. ends_once I.whole v.items ≡ plain_edges I.whole edges.now) }
{
    let mut counted = Vec::with_capacity(alloc, edges.len())?;
    for e in edges {
        let count = ShapeCountBoolean { subj: 1, clip: 0 };
        counted.push(CountedEdge {
            a: e.a,
            b: e.b,
            count,
        })?;
    }
    Ok(counted)
}
