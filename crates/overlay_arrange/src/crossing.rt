//! The whole points through which two edges lead each other.

ghost use Rattle.std.specs.Prelude.{◌≡◌, ◌↔◌, ◌∷◌, [], false, filter, pos, nat_abs, IsTrue, IfOk, OnOk};
ghost use Rattle.overlay_geom.specs.Numbers.{Within};
ghost use Rattle.overlay_geom.specs.Edges.{ends_of};
ghost use Rattle.overlay_geom.specs.Placed.{share_end, IsAcross, IsAlong};
ghost use Rattle.overlay_geom.specs.Points.{plain_point};
ghost use Rattle.overlay_plane.specs.CutPoints.{is_between, crossing};
ghost use Rattle.overlay_order.specs.Content.{plain_edge, IsHeld};
ghost use Rattle.overlay_pairs.specs.Settle.{AreSettled};
ghost use Rattle.overlay_arrange.specs.Cut.{IsEndOf};
ghost use Rattle.overlay_arrange.specs.Meetings.{plain_meetings, AddsBoth, AddsPoints};

use crate::meetings::Meeting;
use overlay_geom::edge::is_before;
use overlay_geom::edge_pair::{Place, is_same};
use overlay_geom::number::{IntNumber, WideIntNumber};
use overlay_geom::point::IntPoint;
use overlay_geom::vector::cross_at;
use overlay_order::count::EdgeCount;
use overlay_order::edge::CountedEdge;
use overlay_pairs::settle::{meet_in_ends, place_by};
use overlay_parts::lines::is_on_line;
use std::alloc::{AllocError, Allocator};

/// Adds the whole points through which the edges e at place i and f at place j lead each other. Collinear edges give
/// the ends of each on the other; crossing edges give the point nearest to the crossing. Returns whether the edges are
/// open: they meet elsewhere than in ends. It counts pairs of edges that overlap.
pub(crate) fn push_meetings<I: IntNumber, C: EdgeCount, A: Allocator>(
    meetings: &mut Vec<Meeting<I>, A>,
    i: usize,
    e: &CountedEdge<I, C>,
    j: usize,
    f: &CountedEdge<I, C>,
    overlaps: &mut usize,
) -> Result<bool, AllocError>
    requires one { IsHeld I.limit (plain_edge I.whole C.counts e.now) }
    requires other { IsHeld I.limit (plain_edge I.whole C.counts f.now) }
    ensures ok { OnOk result (AddsBoth i (plain_edge I.whole C.counts e.now) j (plain_edge I.whole C.counts f.now)
        (plain_meetings I.whole meetings.old.items) (plain_meetings I.whole meetings.new.items)) }
    ensures open { IfOk result (λ is_open. (is_open ≡ false)
        ↔ AreSettled (plain_edge I.whole C.counts e.now) (plain_edge I.whole C.counts f.now)) }
{
    match place_by(e, f) {
        Place::Along => push_along(meetings, i, e, j, f, overlaps),
        Place::Beside => Ok(false),
        Place::Across => push_across(meetings, i, e, j, f),
    }
}

/// Adds the ends of each of two collinear edges that lie on the other edge. Returns whether the edges are open, and
/// counts them if they are.
fn push_along<I: IntNumber, C: EdgeCount, A: Allocator>(
    meetings: &mut Vec<Meeting<I>, A>,
    i: usize,
    e: &CountedEdge<I, C>,
    j: usize,
    f: &CountedEdge<I, C>,
    overlaps: &mut usize,
) -> Result<bool, AllocError>
    requires one { IsHeld I.limit (plain_edge I.whole C.counts e.now) }
    requires other { IsHeld I.limit (plain_edge I.whole C.counts f.now) }
    requires along { IsAlong (ends_of (plain_edge I.whole C.counts e.now))
        (ends_of (plain_edge I.whole C.counts f.now)) }
    ensures ok { OnOk result (AddsBoth i (plain_edge I.whole C.counts e.now) j (plain_edge I.whole C.counts f.now)
        (plain_meetings I.whole meetings.old.items) (plain_meetings I.whole meetings.new.items)) }
    ensures open { IfOk result (λ is_open. (is_open ≡ false)
        ↔ AreSettled (plain_edge I.whole C.counts e.now) (plain_edge I.whole C.counts f.now)) }
{
    if meet_in_ends(e, f) {
        return Ok(false);
    }
    *overlaps = overlaps.saturating_add(1);
    push_ends(meetings, i, e, j, f)?;
    Ok(true)
}

/// Adds the whole point nearest to the crossing of the two edges, unless they meet in ends alone. Returns whether the
/// edges are open.
fn push_across<I: IntNumber, C: EdgeCount, A: Allocator>(
    meetings: &mut Vec<Meeting<I>, A>,
    i: usize,
    e: &CountedEdge<I, C>,
    j: usize,
    f: &CountedEdge<I, C>,
) -> Result<bool, AllocError>
    requires one { IsHeld I.limit (plain_edge I.whole C.counts e.now) }
    requires other { IsHeld I.limit (plain_edge I.whole C.counts f.now) }
    requires across { IsAcross (ends_of (plain_edge I.whole C.counts e.now))
        (ends_of (plain_edge I.whole C.counts f.now)) }
    ensures ok { OnOk result (AddsBoth i (plain_edge I.whole C.counts e.now) j (plain_edge I.whole C.counts f.now)
        (plain_meetings I.whole meetings.old.items) (plain_meetings I.whole meetings.new.items)) }
    ensures open { IfOk result (λ is_open. (is_open ≡ false)
        ↔ AreSettled (plain_edge I.whole C.counts e.now) (plain_edge I.whole C.counts f.now)) }
{
    if cross_in_ends(e, f) {
        return Ok(false);
    }
    push_crossing(meetings, i, e, j, f)?;
    Ok(true)
}

/// Returns whether the two edges meet in ends alone. The edge f goes across e's line. Where they meet elsewhere too, e
/// also goes across f's line.
fn cross_in_ends<I: IntNumber, C: EdgeCount>(e: &CountedEdge<I, C>, f: &CountedEdge<I, C>) -> bool
    requires one { IsHeld I.limit (plain_edge I.whole C.counts e.now) }
    requires other { IsHeld I.limit (plain_edge I.whole C.counts f.now) }
    requires across { IsAcross (ends_of (plain_edge I.whole C.counts e.now))
        (ends_of (plain_edge I.whole C.counts f.now)) }
    ensures settles { IsTrue result
        ↔ AreSettled (plain_edge I.whole C.counts e.now) (plain_edge I.whole C.counts f.now) }
    ensures back { result ≡ false → IsAcross (ends_of (plain_edge I.whole C.counts f.now))
        (ends_of (plain_edge I.whole C.counts e.now)) }
{
    share_end(e, f) || matches!(place_by(f, e), Place::Beside)
}

/// Returns whether an end of e is an end of f.
fn share_end<I: IntNumber, C: EdgeCount>(e: &CountedEdge<I, C>, f: &CountedEdge<I, C>) -> bool
    ensures { result ≡ share_end (ends_of (plain_edge I.whole C.counts e.now))
        (ends_of (plain_edge I.whole C.counts f.now)) }
{
    is_same(e.a, f.a) || is_same(e.a, f.b) || is_same(e.b, f.a) || is_same(e.b, f.b)
}

/// Adds the ends of each of two collinear edges that lie on the other edge.
fn push_ends<I: IntNumber, C: EdgeCount, A: Allocator>(
    meetings: &mut Vec<Meeting<I>, A>,
    i: usize,
    e: &CountedEdge<I, C>,
    j: usize,
    f: &CountedEdge<I, C>,
) -> Result<(), AllocError>
    requires one { IsHeld I.limit (plain_edge I.whole C.counts e.now) }
    requires other { IsHeld I.limit (plain_edge I.whole C.counts f.now) }
    requires along { IsAlong (ends_of (plain_edge I.whole C.counts e.now))
        (ends_of (plain_edge I.whole C.counts f.now)) }
    ensures ok { OnOk result (AddsBoth i (plain_edge I.whole C.counts e.now) j (plain_edge I.whole C.counts f.now)
        (plain_meetings I.whole meetings.old.items) (plain_meetings I.whole meetings.new.items)) }
{
    push_ends_between(meetings, i, e, f)?;
    push_ends_between(meetings, j, f, e)
}

/// Adds the whole point nearest to the crossing of the two edges.
fn push_crossing<I: IntNumber, C: EdgeCount, A: Allocator>(
    meetings: &mut Vec<Meeting<I>, A>,
    i: usize,
    e: &CountedEdge<I, C>,
    j: usize,
    f: &CountedEdge<I, C>,
) -> Result<(), AllocError>
    requires one { IsHeld I.limit (plain_edge I.whole C.counts e.now) }
    requires other { IsHeld I.limit (plain_edge I.whole C.counts f.now) }
    requires forth { IsAcross (ends_of (plain_edge I.whole C.counts e.now))
        (ends_of (plain_edge I.whole C.counts f.now)) }
    requires back { IsAcross (ends_of (plain_edge I.whole C.counts f.now))
        (ends_of (plain_edge I.whole C.counts e.now)) }
    ensures ok { OnOk result (AddsBoth i (plain_edge I.whole C.counts e.now) j (plain_edge I.whole C.counts f.now)
        (plain_meetings I.whole meetings.old.items) (plain_meetings I.whole meetings.new.items)) }
{
    let point = common_point(e, f);
    push_inside(meetings, i, e, point)?;
    push_inside(meetings, j, f, point)
}

/// Returns the whole point nearest to the crossing of the two edges. If an end of one lies on the other's line, it is
/// that end.
fn common_point<I: IntNumber, C: EdgeCount>(
    e: &CountedEdge<I, C>,
    f: &CountedEdge<I, C>,
) -> IntPoint<I>
    requires one { IsHeld I.limit (plain_edge I.whole C.counts e.now) }
    requires other { IsHeld I.limit (plain_edge I.whole C.counts f.now) }
    requires forth { IsAcross (ends_of (plain_edge I.whole C.counts e.now))
        (ends_of (plain_edge I.whole C.counts f.now)) }
    requires back { IsAcross (ends_of (plain_edge I.whole C.counts f.now))
        (ends_of (plain_edge I.whole C.counts e.now)) }
    ensures { plain_point I.whole result
        ≡ crossing (ends_of (plain_edge I.whole C.counts e.now)) (ends_of (plain_edge I.whole C.counts f.now)) }
{
    if is_on_line(e, f.a) {
        f.a
    } else if is_on_line(e, f.b) {
        f.b
    } else {
        crossing(e, f)
    }
}

/// Returns the whole point nearest to the point where e crosses f's line. If an end of e lies on that line, it is that
/// end.
fn crossing<I: IntNumber, C: EdgeCount>(e: &CountedEdge<I, C>, f: &CountedEdge<I, C>) -> IntPoint<I>
    requires one { IsHeld I.limit (plain_edge I.whole C.counts e.now) }
    requires other { IsHeld I.limit (plain_edge I.whole C.counts f.now) }
    requires across { IsAcross (ends_of (plain_edge I.whole C.counts f.now))
        (ends_of (plain_edge I.whole C.counts e.now)) }
    ensures { plain_point I.whole result
        ≡ crossing (ends_of (plain_edge I.whole C.counts e.now)) (ends_of (plain_edge I.whole C.counts f.now)) }
{
    let t = magnitude(cross_at(f.a, f.b, e.a));
    let d = magnitude((f.b - f.a).cross_product(e.b - e.a));
    if t.sign().is_eq() {
        return e.a;
    }
    if t.compare(d).is_eq() {
        return e.b;
    }
    IntPoint {
        x: e.a.x.part_way(e.b.x, t, d),
        y: e.a.y.part_way(e.b.y, t, d),
    }
}

/// Returns the absolute value of the number.
fn magnitude<W: WideIntNumber>(number: W) -> W
    requires { Within W.limit (W.whole number) }
    ensures value { W.whole result ≡ pos (nat_abs (W.whole number)) }
    ensures fits { Within W.limit (W.whole result) }
{
    if number.sign().is_lt() {
        number.negate()
    } else {
        number
    }
}

/// Adds the ends of f that lie between the ends of e.
fn push_ends_between<I: IntNumber, C: EdgeCount, A: Allocator>(
    meetings: &mut Vec<Meeting<I>, A>,
    i: usize,
    e: &CountedEdge<I, C>,
    f: &CountedEdge<I, C>,
) -> Result<(), AllocError>
    ensures ok { let g = plain_edge I.whole C.counts e.now in
        let h = plain_edge I.whole C.counts f.now in
        OnOk result (AddsPoints i g (filter (is_between (ends_of g)) (h.a ∷ h.b ∷ []))
        (plain_meetings I.whole meetings.old.items) (plain_meetings I.whole meetings.new.items)) }
{
    push_between(meetings, i, e, f.a)?;
    push_between(meetings, i, e, f.b)
}

/// Adds the point if it lies between the ends of e.
fn push_between<I: IntNumber, C: EdgeCount, A: Allocator>(
    meetings: &mut Vec<Meeting<I>, A>,
    i: usize,
    e: &CountedEdge<I, C>,
    v: IntPoint<I>,
) -> Result<(), AllocError>
    ensures ok { let whole = plain_edge I.whole C.counts e.now in
        OnOk result (AddsPoints i whole (filter (is_between (ends_of whole)) (plain_point I.whole v ∷ []))
        (plain_meetings I.whole meetings.old.items) (plain_meetings I.whole meetings.new.items)) }
{
    if is_between(e, v) {
        push_inside(meetings, i, e, v)?;
    }
    Ok(())
}

/// Adds the point, unless it is an end of e.
fn push_inside<I: IntNumber, C: EdgeCount, A: Allocator>(
    meetings: &mut Vec<Meeting<I>, A>,
    i: usize,
    e: &CountedEdge<I, C>,
    v: IntPoint<I>,
) -> Result<(), AllocError>
    ensures ok { OnOk result (AddsPoints i (plain_edge I.whole C.counts e.now) (plain_point I.whole v ∷ [])
        (plain_meetings I.whole meetings.old.items) (plain_meetings I.whole meetings.new.items)) }
{
    if !is_end_of(e, v) {
        meetings.push(Meeting { place: i, point: v })?;
    }
    Ok(())
}

/// Returns whether the point is an end of the edge.
pub(crate) fn is_end_of<I: IntNumber, C: EdgeCount>(e: &CountedEdge<I, C>, v: IntPoint<I>) -> bool
    ensures { IsTrue result ↔ IsEndOf (plain_edge I.whole C.counts e.now) (plain_point I.whole v) }
{
    is_same(v, e.a) || is_same(v, e.b)
}

/// Returns whether the point is at least the edge's smaller end and at most its larger end.
fn is_between<I: IntNumber, C: EdgeCount>(e: &CountedEdge<I, C>, v: IntPoint<I>) -> bool
    ensures { result ≡ is_between (ends_of (plain_edge I.whole C.counts e.now)) (plain_point I.whole v) }
{
    !is_before(v, e.a) && !is_before(e.b, v)
}
