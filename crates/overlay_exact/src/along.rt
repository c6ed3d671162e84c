//! The meeting points of an edge with other edges, in their order along it.

ghost use Rattle.std.specs.Prelude.{◌≡◌, true, OnOk};
ghost use Rattle.std.specs.List.Sorted.{IsPermutation};
ghost use Rattle.overlay_geom.specs.Placed.{IsAcross, IsAlong};
ghost use Rattle.overlay_geom.specs.Plane.{Edge, point_lt};
ghost use Rattle.overlay_geom.specs.Points.{plain_point};
ghost use Rattle.overlay_geom.specs.Resolved.{plain_edge, IsLongEdge};
ghost use Rattle.overlay_exact.specs.Along.{plain_met, plain_mets, met_cmp, AreInOrderAlong, AddsMet};
ghost use Rattle.overlay_exact.specs.Along.{overlap_start, overlap_end};

use crate::exact_int::ExactInt;
use crate::met::MetAlong;
use crate::place::{compare_parts, part_of_crossing, part_of_point};
use overlay_geom::edge::{IntEdge, is_before};
use overlay_geom::edge_pair::{Place, place_by};
use overlay_geom::number::IntNumber;
use overlay_geom::point::IntPoint;
use std::alloc::{AllocError, Allocator};
use std::cmp::Ordering;

/// Sorts meeting points of one edge by their order along it, from its smaller end. Equal points come side by side, in
/// the order of the numbers. After a refusal the list has the same points in some order.
pub fn sort_along<I: ExactInt, A: Allocator>(
    met: &mut Vec<MetAlong<I::Wide>, A>,
) -> Result<(), AllocError>
    ensures permutation { IsPermutation met.old.items met.new.items }
    ensures order { OnOk result ((e : Edge) → point_lt e.a e.b ≡ true
        → AreInOrderAlong e (plain_mets I.Wide.whole met.new.items)) }
{
    met.sort_by(|m, n| compare_along::<I>(m, n))?;
    Ok(())
}

// Compares two meeting points of one edge, by their parts of it and then by the numbers of the other edges.
fn compare_along<I: ExactInt>(m: &MetAlong<I::Wide>, n: &MetAlong<I::Wide>) -> Ordering
    ensures { result ≡ met_cmp (plain_met I.Wide.whole m.now) (plain_met I.Wide.whole n.now) }
{
    match compare_parts::<I>(m.part, n.part) {
        Ordering::Equal => m.other.cmp(&n.other),
        order => order,
    }
}

/// Adds the meeting points of e with f, which has the number `other`: where they overlap the two ends of the overlap,
/// else the point that they share, if any. Edges that share an end meet there.
pub fn push_met<I: IntNumber, A: Allocator>(
    met: &mut Vec<MetAlong<I::Wide>, A>,
    e: IntEdge<I>,
    f: IntEdge<I>,
    other: usize,
) -> Result<(), AllocError>
    requires one { IsLongEdge I.limit (plain_edge I.whole e) }
    requires other { IsLongEdge I.limit (plain_edge I.whole f) }
    ensures ok { OnOk result (AddsMet (plain_edge I.whole e) (plain_edge I.whole f) other
        (plain_mets I.Wide.whole met.old.items) (plain_mets I.Wide.whole met.new.items)) }
{
    match place_by(e, f) {
        Place::Along => push_overlap(met, e, f, other),
        Place::Beside => Ok(()),
        Place::Across => push_crossing(met, e, f, other),
    }
}

// Adds the point at which e meets f, which goes across e's line, if they share one.
fn push_crossing<I: IntNumber, A: Allocator>(
    met: &mut Vec<MetAlong<I::Wide>, A>,
    e: IntEdge<I>,
    f: IntEdge<I>,
    other: usize,
) -> Result<(), AllocError>
    requires one { IsLongEdge I.limit (plain_edge I.whole e) }
    requires other { IsLongEdge I.limit (plain_edge I.whole f) }
    requires across { IsAcross (plain_edge I.whole e) (plain_edge I.whole f) }
    ensures ok { OnOk result (AddsMet (plain_edge I.whole e) (plain_edge I.whole f) other
        (plain_mets I.Wide.whole met.old.items) (plain_mets I.Wide.whole met.new.items)) }
{
    if let Place::Across = place_by(f, e) {
        let part = part_of_crossing(e, f);
        met.push(MetAlong { part, other })?;
    }
    Ok(())
}

// Adds the ends of the overlap of two collinear edges, once where they are equal.
fn push_overlap<I: IntNumber, A: Allocator>(
    met: &mut Vec<MetAlong<I::Wide>, A>,
    e: IntEdge<I>,
    f: IntEdge<I>,
    other: usize,
) -> Result<(), AllocError>
    requires one { IsLongEdge I.limit (plain_edge I.whole e) }
    requires other { IsLongEdge I.limit (plain_edge I.whole f) }
    requires along { IsAlong (plain_edge I.whole e) (plain_edge I.whole f) }
    ensures ok { OnOk result (AddsMet (plain_edge I.whole e) (plain_edge I.whole f) other
        (plain_mets I.Wide.whole met.old.items) (plain_mets I.Wide.whole met.new.items)) }
{
    let start = overlap_start(e, f);
    let end = overlap_end(e, f);
    if is_before(end, start) {
        return Ok(());
    }
    let part = part_of_point(e, start);
    met.push(MetAlong { part, other })?;
    if is_before(start, end) {
        let part = part_of_point(e, end);
        met.push(MetAlong { part, other })?;
    }
    Ok(())
}

// Returns the larger of the smaller ends of two edges.
fn overlap_start<I: IntNumber>(e: IntEdge<I>, f: IntEdge<I>) -> IntPoint<I>
    ensures { plain_point I.whole result ≡ overlap_start (plain_edge I.whole e) (plain_edge I.whole f) }
{
    if is_before(e.a, f.a) { f.a } else { e.a }
}

// Returns the smaller of the larger ends of two edges.
fn overlap_end<I: IntNumber>(e: IntEdge<I>, f: IntEdge<I>) -> IntPoint<I>
    ensures { plain_point I.whole result ≡ overlap_end (plain_edge I.whole e) (plain_edge I.whole f) }
{
    if is_before(f.b, e.b) { f.b } else { e.b }
}
