//! The order of edges by their starts, lowest first.

ghost use Rattle.std.specs.Prelude.{◌≡◌, OnOk};
ghost use Rattle.std.specs.List.Sorted.{IsPermutation};
ghost use Rattle.std.specs.Ordering.{is_lt};
ghost use Rattle.overlay_plane.specs.Anchors.{is_anchored_before};
ghost use Rattle.overlay_scan.specs.Sweeps.{IsByStart};
ghost use Rattle.overlay_walk.specs.WalkEdges.{numbered_entry, numbered_entries};

use overlay_geom::number::{IntNumber, WideIntNumber};
use overlay_geom::vector::cross_at;
use overlay_order::edge::compare_points;
use overlay_walk::numbered_edge::NumberedEdge;
use std::alloc::{AllocError, Allocator};
use std::cmp::Ordering;

/// Sorts the edges by their smaller ends, and edges from one point by slope, lowest first.
pub(crate) fn sort_by_start<I: IntNumber, A: Allocator>(
    edges: &mut Vec<NumberedEdge<I>, A>,
) -> Result<(), AllocError>
    ensures permutation { IsPermutation edges.old.items edges.new.items }
    ensures order { OnOk result (IsByStart (numbered_entries I.whole edges.new.items)) }
{
    edges.sort_by(|e, f| compare_starts(e, f))?;
    Ok(())
}

/// Compares two edges by their smaller ends, then by slope: `Less` exactly where the first is anchored before the
/// second.
pub fn compare_starts<I: IntNumber>(e: &NumberedEdge<I>, f: &NumberedEdge<I>) -> Ordering
    ensures { is_lt result ≡ is_anchored_before (numbered_entry I.whole e.now).edge
        (numbered_entry I.whole f.now).edge }
{
    match compare_points(e.a, f.a) {
        Ordering::Equal => cross_at(e.a, f.b, e.b).sign(),
        other => other,
    }
}
