//! The whole points through which the edges of a list lead each other, gathered pair by pair.

ghost use Rattle.std.specs.Prelude.{◌≡◌, ◌+◌, ◌^◌, ◌<◌, ◌≤◌, true, false, length, nat_le, nat_lt};
ghost use Rattle.std.specs.Prelude.{All, None, IfOk, IfSome, IsTrue, OnOk};
ghost use Rattle.std.specs.List.{AllWithin};
ghost use Rattle.std.specs.List.Sorted.{IsPartitionPoint, IsPermutation};
ghost use Rattle.overlay_order.specs.Content.{plain_edges, IsHeld, IsAscending};
ghost use Rattle.overlay_pairs.specs.Changed.{AreHeldChangesOf, AreOpenBefore, AreOpenIn, StayOpen};
ghost use Rattle.overlay_pairs.specs.Strips.{AreHeldStripsOf};
ghost use Rattle.overlay_pairs.specs.Places.{AreSettledBefore, IsAt};
ghost use Rattle.overlay_pairs.specs.Near.{AreNear};
ghost use Rattle.overlay_arrange.specs.Meetings.{plain_meetings, AreByPlace, AreGathered, AreMeetings};
ghost use Rattle.overlay_arrange.specs.Meetings.{HasBefore, IsRunAt};

use crate::crossing::push_meetings;
use crate::limits::first_limit;
use crate::repeats::drop_repeats_from;
use overlay_geom::number::IntNumber;
use overlay_geom::point::IntPoint;
use overlay_order::count::EdgeCount;
use overlay_order::edge::CountedEdge;
use overlay_order::sort_numbers::order_by_numbers;
use overlay_pairs::changed::{Changed, find_open};
use overlay_pairs::strips::Strips;
use std::alloc::{AllocError, Allocator};

/// A whole point through which an edge of a list is led.
#[derive(Clone, Copy)]
pub(crate) struct Meeting<I> {
    /// The place of the edge in its list.
    pub place: usize,
    /// The point.
    pub point: IntPoint<I>,
}

/// Meetings of a list of edges, and marks of its open edges.
pub(crate) type Gathered<I, A> = (Vec<Meeting<I>, A>, Vec<bool, A>);

/// Returns the whole points through which the edges lead each other, in no order, and marks of open edges. The result
/// is None where more than `most_overlaps` pairs of edges overlap. Two edges that are not open meet in ends alone. An
/// edge's own ends may be missing, since they change nothing. The edges ascend, and those before the place `from` meet
/// each later edge in ends alone. Where the changed edges are known, pairs of unchanged edges are not tested.
pub(crate) fn gather<I: IntNumber, C: EdgeCount, A: Allocator + Clone>(
    alloc: A,
    edges: &[CountedEdge<I, C>],
    strips: &Option<Strips<I, A>>,
    changed: &Option<Changed<I, C, A>>,
    from: usize,
    most_overlaps: usize,
) -> Result<Option<Gathered<I, A>>, AllocError>
    requires held { All (IsHeld I.limit) (plain_edges I.whole C.counts edges.now) }
    requires ascending { IsAscending (plain_edges I.whole C.counts edges.now) }
    requires strips { IfSome strips.now (AreHeldStripsOf I.whole I.limit (plain_edges I.whole C.counts edges.now)) }
    requires changed { IfSome changed.now
        (AreHeldChangesOf I.whole C.counts I.limit (plain_edges I.whole C.counts edges.now)) }
    requires settled { AreSettledBefore (plain_edges I.whole C.counts edges.now) from }
    ensures ok { IfOk result (λ found. IfSome found (λ gathered. AreMeetings
        (plain_edges I.whole C.counts edges.now) (plain_meetings I.whole gathered.0.items))) }
    ensures open { IfOk result (λ found. IfSome found (λ gathered.
        AreOpenIn (plain_edges I.whole C.counts edges.now) gathered.1.items)) }
    ensures many { IfOk result (λ found. (found ≡ None) → most_overlaps + 1 < 2 ^ 64) }
{
    let mut near = Vec::new(alloc.clone()?);
    let mut is_open = Vec::new(alloc.clone()?);
    is_open.resize(edges.len(), false)?;
    let mut meetings = Vec::new(alloc);
    let mut most = first_limit(edges.len());
    let mut overlaps = 0;
    for i in from..edges.len() {
        find_open(&mut near, edges, strips, changed, i)?;
        gather_from(&mut meetings, &mut is_open, edges, i, &near, &mut overlaps)?;
        if is_more(overlaps, most_overlaps) {
            return Ok(None);
        }
        most = drop_repeats_from(&mut meetings, most)?;
    }
    Ok(Some((meetings, is_open)))
}

/// Returns whether the count is more than a limit.
fn is_more(count: usize, most: usize) -> bool
    ensures { IsTrue result → most + 1 < 2 ^ 64 }
{
    most < count
}

/// Adds the points through which the edge at place i and the later edges lead each other, and marks open edges. It may
/// meet only the later edges at the places `near` elsewhere than in ends.
fn gather_from<I: IntNumber, C: EdgeCount, A: Allocator>(
    meetings: &mut Vec<Meeting<I>, A>,
    is_open: &mut Vec<bool, A>,
    edges: &[CountedEdge<I, C>],
    i: usize,
    near: &[usize],
    overlaps: &mut usize,
) -> Result<(), AllocError>
    requires held { All (IsHeld I.limit) (plain_edges I.whole C.counts edges.now) }
    requires ascending { IsAscending (plain_edges I.whole C.counts edges.now) }
    requires within { i < length edges.now }
    requires near { AreNear (plain_edges I.whole C.counts edges.now) i near.now }
    requires gathered { AreGathered (plain_edges I.whole C.counts edges.now)
        (HasBefore i) (plain_meetings I.whole meetings.old.items) }
    requires open { AreOpenBefore (plain_edges I.whole C.counts edges.now) i is_open.old.items }
    ensures ok { OnOk result (AreGathered (plain_edges I.whole C.counts edges.now)
        (HasBefore (i + 1)) (plain_meetings I.whole meetings.new.items)) }
    ensures open { OnOk result (AreOpenBefore (plain_edges I.whole C.counts edges.now) (i + 1) is_open.new.items) }
{
    let e = edges[i];
    for k in 0..near.len() {
        let j = near[k];
        let f = &edges[j];
        if push_meetings(meetings, i, &e, j, f, overlaps)? {
            mark_open(is_open, i, j);
        }
    }
    Ok(())
}

/// Marks two edges as open.
fn mark_open<A: Allocator>(is_open: &mut Vec<bool, A>, i: usize, j: usize)
    requires one { i < length is_open.old.items }
    requires other { j < length is_open.old.items }
    ensures one { IsAt is_open.new.items i true }
    ensures other { IsAt is_open.new.items j true }
    ensures stay { StayOpen is_open.old.items is_open.new.items }
    ensures count { length is_open.new.items ≡ length is_open.old.items }
{
    is_open[i] = true;
    is_open[j] = true;
}

/// Sorts the meetings of the edges by their places.
pub(crate) fn sort_meetings<I: IntNumber, C: EdgeCount, A: Allocator + Clone>(
    meetings: &mut Vec<Meeting<I>, A>,
    edges: &[CountedEdge<I, C>],
) -> Result<(), AllocError>
    requires { AreMeetings (plain_edges I.whole C.counts edges.now) (plain_meetings I.whole meetings.old.items) }
    ensures meetings { AreMeetings (plain_edges I.whole C.counts edges.now)
        (plain_meetings I.whole meetings.new.items) }
    ensures order { OnOk result (AreByPlace (plain_meetings I.whole meetings.new.items)) }
{
    sort_by_place(meetings, edges.len())
}

/// Sorts the meetings by their places. It is fast if these are below `count`.
fn sort_by_place<I: IntNumber, A: Allocator + Clone>(
    meetings: &mut Vec<Meeting<I>, A>,
    count: usize,
) -> Result<(), AllocError>
    ensures permutation { IsPermutation meetings.old.items meetings.new.items }
    ensures order { OnOk result (AreByPlace (plain_meetings I.whole meetings.new.items)) }
{
    order_by_numbers(meetings, count, |m| m.place)?;
    meetings.sort_by(|m, n| m.place.cmp(&n.place))?;
    Ok(())
}

/// Returns the range of the meetings of the edge at place i. The meetings are sorted by their places. It tries whether
/// the range begins at `near`.
pub(crate) fn run_at<I: IntNumber>(meetings: &[Meeting<I>], near: usize, i: usize) -> (usize, usize)
    requires { AreByPlace (plain_meetings I.whole meetings.now) }
    ensures { IsRunAt (plain_meetings I.whole meetings.now) i result.0 result.1 }
{
    let low = count_before(meetings, near, i);
    (low, count_up_to(meetings, low, i))
}

/// Returns the number of meetings with smaller places than i, which come first. It tries `near`.
fn count_before<I: IntNumber>(meetings: &[Meeting<I>], near: usize, i: usize) -> usize
    requires { AreByPlace (plain_meetings I.whole meetings.now) }
    ensures within { result ≤ length meetings.now }
    ensures parted { IsPartitionPoint (λ m. nat_lt m.place i ≡ true) (λ m. nat_lt m.place i ≡ false)
        meetings.now result }
{
    if is_parted_at(meetings, near, i) {
        near
    } else {
        meetings.partition_point(|m| m.place < i)
    }
}

/// Returns whether just the meetings before a place have smaller places than i.
fn is_parted_at<I: IntNumber>(meetings: &[Meeting<I>], at: usize, i: usize) -> bool
    requires { AreByPlace (plain_meetings I.whole meetings.now) }
    ensures within { result ≡ true → at ≤ length meetings.now }
    ensures parted { result ≡ true → IsPartitionPoint (λ m. nat_lt m.place i ≡ true) (λ m. nat_lt m.place i ≡ false)
        meetings.now at }
{
    if at > meetings.len() {
        return false;
    }
    if at > 0 && meetings[at - 1].place >= i {
        return false;
    }
    at == meetings.len() || meetings[at].place >= i
}

/// Returns the number of meetings with places up to i, which come first. Those before `low` have smaller places.
fn count_up_to<I: IntNumber>(meetings: &[Meeting<I>], low: usize, i: usize) -> usize
    requires order { AreByPlace (plain_meetings I.whole meetings.now) }
    requires within { low ≤ length meetings.now }
    requires smaller { AllWithin (λ m. nat_lt m.place i ≡ true) meetings.now 0 low }
    ensures within { result ≤ length meetings.now }
    ensures parted { IsPartitionPoint (λ m. nat_le m.place i ≡ true) (λ m. nat_le m.place i ≡ false)
        meetings.now result }
{
    let mut high = low;
    while high < meetings.len() && meetings[high].place <= i {
        high += 1;
    }
    high
}
