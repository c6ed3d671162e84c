//! Edges compared by their heights, and lists of edges in range.

ghost use Rattle.std.specs.Prelude.{◌≡◌, true, false, map, All, IfOk};
ghost use Rattle.std.specs.Ordering.{is_gt};
ghost use Rattle.overlay_order.specs.Content.{plain_edge, plain_edges, IsHeld};
ghost use Rattle.overlay_located.specs.Slabs.{plain_lines};
ghost use Rattle.overlay_located.specs.Chains.{IsUnder, StartsUnder, EndsUnder};

use crate::line::Line;
use overlay_geom::number::{IntNumber, WideIntNumber};
use overlay_geom::vector::cross_at;
use overlay_order::count::EdgeCount;
use overlay_sectors::form::EdgeForm;
use std::alloc::{AllocError, Allocator};
use std::cmp::Ordering;

/// Returns the edges, in their order.
pub(crate) fn lines_of<I: IntNumber, C: EdgeCount, E: EdgeForm<I, C>, A: Allocator>(
    alloc: A,
    edges: &[E],
) -> Result<Vec<Line<I, C>, A>, AllocError>
    requires { All (IsHeld I.limit) (plain_edges I.whole C.counts (map E.meant edges.now)) }
    ensures { IfOk result (λ v. plain_lines I.whole C.counts v.items
        ≡ plain_edges I.whole C.counts (map E.meant edges.now)) }
{
    let mut lines = Vec::with_capacity(alloc, edges.len())?;
    for e in edges {
        let edge = e.edge();
        lines.push(Line { edge })?;
    }
    Ok(lines)
}

/// Returns whether, as two ends tell, the first edge is under the second wherever both have points.
pub(crate) fn is_under<I: IntNumber, C: EdgeCount>(e: &Line<I, C>, f: &Line<I, C>) -> bool
    ensures { result ≡ true
        → IsUnder (plain_edge I.whole C.counts e.now.edge) (plain_edge I.whole C.counts f.now.edge) }
{
    !compare_at_start(e, f).is_gt() && !compare_at_end(e, f).is_gt()
}

/// Compares the heights of two edges where the later of them starts. Where these are equal, it compares them where the
/// first of them ends.
pub(crate) fn compare_heights<I: IntNumber, C: EdgeCount>(
    e: &Line<I, C>,
    f: &Line<I, C>,
) -> Ordering {
    match compare_at_start(e, f) {
        Ordering::Equal => compare_at_end(e, f),
        other => other,
    }
}

// Compares the heights of two edges where the later of them starts.
fn compare_at_start<I: IntNumber, C: EdgeCount>(e: &Line<I, C>, f: &Line<I, C>) -> Ordering
    ensures { is_gt result ≡ false
        → StartsUnder (plain_edge I.whole C.counts e.now.edge) (plain_edge I.whole C.counts f.now.edge) }
{
    if e.edge.a.x.compare(f.edge.a.x).is_lt() {
        cross_at(e.edge.b, e.edge.a, f.edge.a).sign()
    } else {
        cross_at(f.edge.a, f.edge.b, e.edge.a).sign()
    }
}

// Compares the heights of two edges where the first of them ends.
fn compare_at_end<I: IntNumber, C: EdgeCount>(e: &Line<I, C>, f: &Line<I, C>) -> Ordering
    ensures { is_gt result ≡ false
        → EndsUnder (plain_edge I.whole C.counts e.now.edge) (plain_edge I.whole C.counts f.now.edge) }
{
    if f.edge.b.x.compare(e.edge.b.x).is_lt() {
        cross_at(e.edge.b, e.edge.a, f.edge.b).sign()
    } else {
        cross_at(f.edge.a, f.edge.b, e.edge.b).sign()
    }
}
