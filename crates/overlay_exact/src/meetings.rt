//! The meeting points of the edges of a list with each other.

ghost use Rattle.std.specs.Prelude.{◌≡◌, ◌<◌, [], int_le, length, map, All, IfOk, OnOk};
ghost use Rattle.overlay_geom.specs.Edges.{ends_of};
ghost use Rattle.overlay_geom.specs.Resolved.{plain_edge};
ghost use Rattle.overlay_order.specs.Content.{plain_edge as counted_edge, plain_edges, IsAscending, IsHeld};
ghost use Rattle.overlay_pairs.specs.Places.{IsAt};
ghost use Rattle.overlay_exact.specs.AllMet.{AreMetBefore, AreMetByStarts, AreMetOf};
ghost use Rattle.overlay_exact.specs.Along.{plain_mets};
ghost use Rattle.overlay_exact.specs.Passed.{plain_passed, ArePassed};

use crate::along::{push_met, sort_along};
use crate::exact_int::ExactInt;
use crate::met::MetAlong;
use crate::passed::{PassedEdge, drop_left};
use overlay_geom::edge::IntEdge;
use overlay_geom::number::{IntNumber, WideIntNumber};
use overlay_order::count::EdgeCount;
use overlay_order::edge::CountedEdge;
use std::alloc::{AllocError, Allocator};

/// The meeting points of each edge of a list with the other edges.
#[derive(Drop)]
pub struct Meetings<W: WideIntNumber, A: Allocator> {
    /// Where those of each edge start in `met`; the last number is that of all.
    pub starts: Vec<usize, A>,
    /// The meeting points of the first edge, then of the next, and so on; of one edge in their order along it.
    pub met: Vec<MetAlong<W>, A>,
}

/// Finds where each edge of an ascending list meets the others. The numbers are places of the list. It looks at pairs
/// of edges that share an x-coordinate, and at no others.
pub fn find_meetings<I: ExactInt, C: EdgeCount, A: Allocator + Clone>(
    alloc: A,
    edges: &[CountedEdge<I, C>],
) -> Result<Meetings<I::Wide, A>, AllocError>
    requires held { All (IsHeld I.limit) (plain_edges I.whole C.counts edges.now) }
    requires ascending { IsAscending (plain_edges I.whole C.counts edges.now) }
    ensures ok { IfOk result (λ found. AreMetByStarts (plain_edges I.whole C.counts edges.now) (length edges.now)
        found.starts.items (plain_mets I.Wide.whole found.met.items)) }
{
    let mut passed = Vec::new(alloc.clone()?);
    let mut own = Vec::new(alloc.clone()?);
    let mut met = Vec::new(alloc.clone()?);
    let mut starts = Vec::new(alloc);
    starts.push(0)?;
    for i in 0..edges.len() {
        let edge = &edges[i];
        drop_left(&mut passed, edge.a.x);
        find_met(&mut own, edges, &passed, i)?;
        met.extend_from_slice(&own)?;
        starts.push(met.len())?;
        passed.push(PassedEdge {
            place: i,
            right: edge.b.x,
        })?;
    }
    Ok(Meetings { starts, met })
}

/// Finds where the edge at place i of an ascending list meets the others, in their order along it. It looks at all
/// edges before it, and at those behind it that start up to its right end.
pub fn find_met_of<I: ExactInt, C: EdgeCount, A: Allocator + Clone>(
    alloc: A,
    edges: &[CountedEdge<I, C>],
    i: usize,
) -> Result<Vec<MetAlong<I::Wide>, A>, AllocError>
    requires held { All (IsHeld I.limit) (plain_edges I.whole C.counts edges.now) }
    requires ascending { IsAscending (plain_edges I.whole C.counts edges.now) }
    requires within { i < length edges.now }
    ensures ok { IfOk result (λ met. (e : _) → IsAt (plain_edges I.whole C.counts edges.now) i e
        → AreMetOf (plain_edges I.whole C.counts edges.now) i e (plain_mets I.Wide.whole met.items)) }
{
    let mut met = Vec::new(alloc.clone()?);
    let mut passed = Vec::new(alloc);
    for place in 0..i {
        let edge = &edges[place];
        passed.push(PassedEdge {
            place,
            right: edge.b.x,
        })?;
    }
    find_met(&mut met, edges, &passed, i)?;
    Ok(met)
}

// Finds where the edge at place i meets the others, in their order along it. `passed` has the earlier edges that do not
// end left of it.
fn find_met<I: ExactInt, C: EdgeCount, A: Allocator>(
    met: &mut Vec<MetAlong<I::Wide>, A>,
    edges: &[CountedEdge<I, C>],
    passed: &[PassedEdge<I>],
    i: usize,
) -> Result<(), AllocError>
    requires held { All (IsHeld I.limit) (plain_edges I.whole C.counts edges.now) }
    requires ascending { IsAscending (plain_edges I.whole C.counts edges.now) }
    requires within { i < length edges.now }
    requires passed { (e : _) → IsAt (plain_edges I.whole C.counts edges.now) i e
        → ArePassed (plain_edges I.whole C.counts edges.now) i e.a.x (map (plain_passed I.whole) passed.now) }
    ensures ok { OnOk result ((e : _) → IsAt (plain_edges I.whole C.counts edges.now) i e
        → AreMetOf (plain_edges I.whole C.counts edges.now) i e (plain_mets I.Wide.whole met.new.items)) }
{
    met.clear();
    push_met_before(met, edges, passed, i)?;
    push_met_behind(met, edges, i)?;
    sort_along::<I, A>(met)?;
    Ok(())
}

// Adds the points where the edge at place i meets the passed ones.
fn push_met_before<I: IntNumber, C: EdgeCount, A: Allocator>(
    met: &mut Vec<MetAlong<I::Wide>, A>,
    edges: &[CountedEdge<I, C>],
    passed: &[PassedEdge<I>],
    i: usize,
) -> Result<(), AllocError>
    requires held { All (IsHeld I.limit) (plain_edges I.whole C.counts edges.now) }
    requires within { i < length edges.now }
    requires empty { met.old.items ≡ [] }
    requires passed { (e : _) → IsAt (plain_edges I.whole C.counts edges.now) i e
        → ArePassed (plain_edges I.whole C.counts edges.now) i e.a.x (map (plain_passed I.whole) passed.now) }
    ensures ok { OnOk result ((e : _) → IsAt (plain_edges I.whole C.counts edges.now) i e
        → AreMetBefore (plain_edges I.whole C.counts edges.now) i i e (plain_mets I.Wide.whole met.new.items)) }
{
    let e = ends_of(&edges[i]);
    for k in 0..passed.len() {
        let j = passed[k].place;
        push_met(met, e, ends_of(&edges[j]), j)?;
    }
    Ok(())
}

// Adds the points where the edge at place i meets those behind it: they start up to its right end.
fn push_met_behind<I: IntNumber, C: EdgeCount, A: Allocator>(
    met: &mut Vec<MetAlong<I::Wide>, A>,
    edges: &[CountedEdge<I, C>],
    i: usize,
) -> Result<(), AllocError>
    requires held { All (IsHeld I.limit) (plain_edges I.whole C.counts edges.now) }
    requires ascending { IsAscending (plain_edges I.whole C.counts edges.now) }
    requires within { i < length edges.now }
    requires before { (e : _) → IsAt (plain_edges I.whole C.counts edges.now) i e
        → AreMetBefore (plain_edges I.whole C.counts edges.now) i i e (plain_mets I.Wide.whole met.old.items) }
    ensures ok { OnOk result ((e : _) → IsAt (plain_edges I.whole C.counts edges.now) i e
        → AreMetBefore (plain_edges I.whole C.counts edges.now) (length edges.now) i e
        (plain_mets I.Wide.whole met.new.items)) }
{
    let e = ends_of(&edges[i]);
    let mut j = i + 1;
    while j < edges.len() && reaches(&edges[i], &edges[j]) {
        push_met(met, e, ends_of(&edges[j]), j)?;
        j += 1;
    }
    Ok(())
}

// Returns whether f starts no further right than e ends.
fn reaches<I: IntNumber, C: EdgeCount>(e: &CountedEdge<I, C>, f: &CountedEdge<I, C>) -> bool
    ensures { result ≡ int_le (I.whole f.now.a.x) (I.whole e.now.b.x) }
{
    f.a.x.compare(e.b.x).is_le()
}

// Returns the two ends of an edge, without its counts.
fn ends_of<I: IntNumber, C: EdgeCount>(e: &CountedEdge<I, C>) -> IntEdge<I>
    ensures { plain_edge I.whole result ≡ ends_of (counted_edge I.whole C.counts e.now) }
{
    IntEdge { a: e.a, b: e.b }
}
