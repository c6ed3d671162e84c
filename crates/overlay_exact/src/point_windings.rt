//! Windings at whole points: the sums of the counts of the edges strictly below them.

ghost use Rattle.std.specs.Prelude.{◌≡◌, ◌&&◌, ◌+◌, ◌<◌, ◌≤◌, ◌^◌, ◌+ℤ◌, ◌<ℤ◌, int_lt, int_le, length, map, filter};
ghost use Rattle.std.specs.Prelude.{All, IfOk, OnOk};
ghost use Rattle.overlay_geom.specs.Edges.{ends_of};
ghost use Rattle.overlay_geom.specs.Numbers.{Within};
ghost use Rattle.overlay_geom.specs.Plane.{in_plane, is_strictly_below};
ghost use Rattle.overlay_geom.specs.Points.{plain_point, InRange};
ghost use Rattle.overlay_order.specs.Content.{plain_edge, plain_edges, IsHeld, IsContent, IsAscending};
ghost use Rattle.overlay_pairs.specs.Places.{IsAt};
ghost use Rattle.overlay_exact.specs.PointWindings.{point_windings, AreLive, AreRightward, TellWindings};

use overlay_geom::number::{IntNumber, WideIntNumber};
use overlay_geom::point::IntPoint;
use overlay_geom::vector::cross_at;
use overlay_order::count::EdgeCount;
use overlay_order::edge::CountedEdge;
use std::alloc::{AllocError, Allocator};

/// The windings of the subject and of the clip at a point.
#[derive(Debug, Clone, Copy, PartialEq, Eq)]
pub struct PointWindings {
    /// The winding of the subject.
    pub subj: i64,
    /// The winding of the clip.
    pub clip: i64,
}

impl PointWindings {
    // Returns the windings with the counts of the edge added.
    fn with<I, C: EdgeCount>(self, edge: &CountedEdge<I, C>) -> PointWindings
        requires subj { Within (2 ^ 31) self.subj }
        requires clip { Within (2 ^ 31) self.clip }
        ensures subj { result.subj ≡ self.subj +ℤ (C.counts edge.now.count).subj }
        ensures clip { result.clip ≡ self.clip +ℤ (C.counts edge.now.count).clip }
    {
        PointWindings {
            subj: self.subj + i64::from(edge.count.subj()),
            clip: self.clip + i64::from(edge.count.clip()),
        }
    }
}

/// Returns the windings at each of the points, in their order. The edges ascend, and no point lies left of one before
/// it. At each point it looks at the edges that span its x-coordinate alone. The error is that memory is refused.
pub fn windings_at_points<I: IntNumber, C: EdgeCount, A: Allocator + Clone>(
    alloc: A,
    edges: &[CountedEdge<I, C>],
    points: &[IntPoint<I>],
) -> Result<Vec<PointWindings, A>, AllocError>
    requires content { IsContent I.limit (plain_edges I.whole C.counts edges.now) }
    requires ascending { IsAscending (plain_edges I.whole C.counts edges.now) }
    requires points { All (InRange I.limit) (map (plain_point I.whole) points.now) }
    requires rightward { AreRightward (map (plain_point I.whole) points.now) }
    ensures ok { IfOk result (λ v. v.items ≡ map (point_windings (plain_edges I.whole C.counts edges.now))
        (map (plain_point I.whole) points.now)) }
{
    let mut live = Vec::new(alloc.clone()?);
    let mut found = Vec::new(alloc);
    let mut begun = 0;
    for v in points {
        begun = push_begun(&mut live, edges, begun, v.x)?;
        drop_ended(&mut live, v.x);
        found.push(windings_at(&live, *v))?;
    }
    Ok(found)
}

/// Brings live edges on to the start of the edge at place i of an ascending list: they then tell the windings there.
/// Edges before the place `begun` have begun before. Returns the place of the first edge that has not begun now.
pub fn live_at_start<I: IntNumber, C: EdgeCount, A: Allocator>(
    live: &mut Vec<CountedEdge<I, C>, A>,
    edges: &[CountedEdge<I, C>],
    begun: usize,
    i: usize,
) -> Result<usize, AllocError>
    requires held { All (IsHeld I.limit) (plain_edges I.whole C.counts edges.now) }
    requires ascending { IsAscending (plain_edges I.whole C.counts edges.now) }
    requires within { begun ≤ length edges.now }
    requires place { i < length edges.now }
    requires live { (e : _) → IsAt (plain_edges I.whole C.counts edges.now) i e
        → AreLive I.limit (plain_edges I.whole C.counts edges.now) begun e.a.x
        (plain_edges I.whole C.counts live.old.items) }
    ensures within { IfOk result (λ n. n ≤ length edges.now) }
    ensures live { IfOk result (λ n. (e : _) → IsAt (plain_edges I.whole C.counts edges.now) (i + 1) e
        → AreLive I.limit (plain_edges I.whole C.counts edges.now) n e.a.x
        (plain_edges I.whole C.counts live.new.items)) }
    ensures windings { OnOk result ((e : _) → IsAt (plain_edges I.whole C.counts edges.now) i e
        → TellWindings I.limit (plain_edges I.whole C.counts edges.now) e.a
        (plain_edges I.whole C.counts live.new.items)) }
{
    let e = &edges[i];
    let next = push_begun(live, edges, begun, e.a.x)?;
    drop_ended(live, e.a.x);
    Ok(next)
}

// Adds the edges from the place `from` on that start up to x to the live ones. Returns the place of the next edge.
fn push_begun<I: IntNumber, C: EdgeCount, A: Allocator>(
    live: &mut Vec<CountedEdge<I, C>, A>,
    edges: &[CountedEdge<I, C>],
    from: usize,
    x: I,
) -> Result<usize, AllocError>
    requires held { All (IsHeld I.limit) (plain_edges I.whole C.counts edges.now) }
    requires within { from ≤ length edges.now }
    requires live { AreLive I.limit (plain_edges I.whole C.counts edges.now) from (I.whole x)
        (plain_edges I.whole C.counts live.old.items) }
    ensures within { IfOk result (λ n. n ≤ length edges.now) }
    ensures live { IfOk result (λ n. AreLive I.limit (plain_edges I.whole C.counts edges.now) n (I.whole x)
        (plain_edges I.whole C.counts live.new.items)) }
    ensures right { IfOk result (λ n. (f : _) → IsAt (plain_edges I.whole C.counts edges.now) n f
        → I.whole x <ℤ f.a.x) }
{
    let mut end = from;
    while end < edges.len() && !x.compare(edges[end].a.x).is_lt() {
        live.push(edges[end])?;
        end += 1;
    }
    Ok(end)
}

// Drops the edges that end at x or before.
fn drop_ended<I: IntNumber, C: EdgeCount, A: Allocator>(live: &mut Vec<CountedEdge<I, C>, A>, x: I)
    ensures { live.new.items ≡ filter (λ e. int_lt (I.whole x) (I.whole e.b.x)) live.old.items }
{
    live.retain(|e| x.compare(e.b.x).is_lt());
}

/// Returns the windings at a whole point. It looks at all edges.
pub fn windings_at<I: IntNumber, C: EdgeCount>(
    edges: &[CountedEdge<I, C>],
    v: IntPoint<I>,
) -> PointWindings
    requires content { IsContent I.limit (plain_edges I.whole C.counts edges.now) }
    requires point { InRange I.limit (plain_point I.whole v) }
    ensures { result ≡ point_windings (plain_edges I.whole C.counts edges.now) (plain_point I.whole v) }
{
    let mut windings = PointWindings { subj: 0, clip: 0 };
    for e in edges {
        if is_below(e, v) {
            windings = windings.with(e);
        }
    }
    windings
}

// Returns whether the edge lies strictly below the point.
fn is_below<I: IntNumber, C: EdgeCount>(e: &CountedEdge<I, C>, v: IntPoint<I>) -> bool
    requires edge { IsHeld I.limit (plain_edge I.whole C.counts e.now) }
    requires point { InRange I.limit (plain_point I.whole v) }
    ensures { result
        ≡ is_strictly_below (ends_of (plain_edge I.whole C.counts e.now)) (in_plane (plain_point I.whole v)) }
{
    spans(e, v.x) && cross_at(e.a, e.b, v).sign().is_gt()
}

// Returns whether x is in the span of the edge without its right end.
fn spans<I: IntNumber, C: EdgeCount>(e: &CountedEdge<I, C>, x: I) -> bool
    ensures { result ≡ (int_le (I.whole e.now.a.x) (I.whole x) && int_lt (I.whole x) (I.whole e.now.b.x)) }
{
    e.a.x.compare(x).is_le() && x.compare(e.b.x).is_lt()
}
