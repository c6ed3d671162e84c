//! A merged copy of a content.

ghost use Rattle.std.specs.Prelude.{◌≡◌, IfOk, IsOkUnless};
ghost use Rattle.std.specs.List.Sorted.{IsPermutation};
ghost use Rattle.overlay_geom.specs.Merged.{IsMerged};
ghost use Rattle.overlay_plane.specs.Carried.{edges_in};
ghost use Rattle.overlay_order.specs.Content.{plain_edges, IsContent};
ghost use Rattle.overlay_order.specs.Counts.{boolean_counts};

use overlay_arrange::content::Content;
use overlay_geom::error::OverlayError;
use overlay_geom::number::IntNumber;
use overlay_order::count::ShapeCountBoolean;
use overlay_order::edge::{CountedEdge, compare_edges};
use overlay_order::sort_points::order_by_points;
use overlay_order::sort_runs::sort_neighbours;
use std::alloc::{AllocError, Allocator};

/// Returns a copy of the content in which equal edges are one, and edges without counts are dropped. The only refusal
/// is `Memory`.
pub(crate) fn merged_copy<I: IntNumber, A: Allocator + Clone>(
    content: &Content<I, ShapeCountBoolean, A>,
) -> Result<Content<I, ShapeCountBoolean, A>, OverlayError>
    ensures merged { IfOk result (λ c. IsMerged (edges_in content.now) (edges_in c)) }
    ensures err { IsOkUnless result OverlayError.Memory }
{
    let alloc = content.allocator().clone()?;
    let ordered = ordered_edges(alloc.clone()?, content.edges())?;
    let mut merged = content_of(alloc, &ordered)?;
    merged.merge(&mut ())?;
    Ok(merged)
}

// Returns the edges, mostly in their order: each stands behind at most a few edges that it precedes. Such edges are
// merged in less time.
fn ordered_edges<I: IntNumber, A: Allocator + Clone>(
    alloc: A,
    edges: &[CountedEdge<I, ShapeCountBoolean>],
) -> Result<Vec<CountedEdge<I, ShapeCountBoolean>, A>, AllocError>
    ensures { IfOk result (λ v. IsPermutation edges.now v.items) }
{
    let mut ordered = Vec::with_capacity(alloc, edges.len())?;
    ordered.extend_from_slice(edges)?;
    order_by_points(&mut ordered, |e| e.a)?;
    sort_neighbours(&mut ordered, |e, f| compare_edges(e, f));
    Ok(ordered)
}

/// Returns a content of the edges. The only refusal is `Memory`.
pub(crate) fn content_of<I: IntNumber, A: Allocator>(
    alloc: A,
    edges: &[CountedEdge<I, ShapeCountBoolean>],
) -> Result<Content<I, ShapeCountBoolean, A>, OverlayError>
    requires { IsContent I.limit (plain_edges I.whole boolean_counts edges.now) }
    ensures copy { IfOk result (λ c. edges_in c ≡ plain_edges I.whole boolean_counts edges.now) }
    ensures err { IsOkUnless result OverlayError.Memory }
{
    let mut copy = Content::with_capacity(alloc, edges.len())?;
    for edge in edges {
        copy.push(*edge)?;
    }
    Ok(copy)
}
