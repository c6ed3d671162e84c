//! The points of a strip whose pixels an edge may meet. They are sorted by height, so they are a run: the points before
//! it lie below the edge, and those behind it above.

ghost use Rattle.std.specs.Prelude.{◌≡◌, ◌⊎◌, ℕ, ◌<◌, ◌≤◌, ℤ, pos, ◌*ℤ◌, ◌-ℤ◌, ◌≤ℤ◌, length, cond, int_lt, IsTrue};
ghost use Rattle.std.specs.Prelude.{OnOk};
ghost use Rattle.std.specs.Ordering.{is_lt};
ghost use Rattle.overlay_geom.specs.Edges.{ends_of};
ghost use Rattle.overlay_geom.specs.Points.{plain_point, plain_points, InRange};
ghost use Rattle.overlay_order.specs.Content.{plain_edge, IsHeld};
ghost use Rattle.overlay_arrange.specs.PixelRuns.{AddsPoints, AddsRun, ArePassedAbove, ArePassedBelow, AreUpwards};
ghost use Rattle.overlay_arrange.specs.PixelRuns.{is_far_above, is_far_below, IsAmidX, PassesAbove, PassesBelow};

use crate::course::Course;
use crate::pixel::{order_to_high, order_to_low};
use overlay_geom::number::IntNumber;
use overlay_geom::point::IntPoint;
use overlay_geom::vector::cross_at;
use overlay_order::count::EdgeCount;
use overlay_order::edge::CountedEdge;
use overlay_pairs::extents::is_less;
use std::alloc::{AllocError, Allocator};
use std::cmp::Ordering;

// First step, in places, of the search for a point that lies above an edge.
const FIRST_STEP: usize = 8;

/// A strip: the points of a list from `from` up to `to`, by their heights.
#[derive(Clone, Copy)]
pub(crate) struct Strip<'a, I> {
    /// The list: the points of all strips.
    pub(crate) points: &'a [IntPoint<I>],
    /// The place of the first point of the strip.
    pub(crate) from: usize,
    /// The place behind its last point.
    pub(crate) to: usize,
    /// An x-coordinate: no point of the strip lies left of it.
    pub(crate) left: I,
    /// An x-coordinate: no point of the strip lies right of it.
    pub(crate) right: I,
}

/// Adds the points of a strip whose pixels the edge may meet.
pub(crate) fn push_run<I: IntNumber, C: EdgeCount, A: Allocator>(
    points: &mut Vec<IntPoint<I>, A>,
    strip: &Strip<'_, I>,
    e: &CountedEdge<I, C>,
    course: &Course<I>,
) -> Result<(), AllocError>
    requires one { IsHeld I.limit (plain_edge I.whole C.counts e.now) }
    requires ordered { strip.now.from ≤ strip.now.to }
    requires within { strip.now.to ≤ length strip.now.points.now }
    requires upwards { AreUpwards (plain_points I.whole strip.now.points.now) strip.now.from strip.now.to }
    ensures ok { OnOk result (AddsRun (I.whole strip.now.left) (I.whole strip.now.right)
        (plain_edge I.whole C.counts e.now) (plain_points I.whole strip.now.points.now) strip.now.from strip.now.to
        (plain_points I.whole points.old.items) (plain_points I.whole points.new.items)) }
{
    let (first, last) = x_along(e, strip.left, strip.right);
    let low = near_start(strip, e, course, first);
    let rest = Strip {
        from: low,
        ..*strip
    };
    let high = near_end(&rest, e, course, last);
    push_points(points, strip.points, low, high, is_less(e.b.y, e.a.y))
}

/// Adds the points from `from` up to `to`, last first where an edge falls: in the order along the edge.
fn push_points<I: IntNumber, A: Allocator>(
    points: &mut Vec<IntPoint<I>, A>,
    strips: &[IntPoint<I>],
    from: usize,
    to: usize,
    falls: bool,
) -> Result<(), AllocError>
    requires ordered { from ≤ to }
    requires within { to ≤ length strips.now }
    ensures ok { OnOk result
        (AddsPoints (plain_points I.whole strips.now) from to
        (plain_points I.whole points.old.items) (plain_points I.whole points.new.items)) }
{
    if falls {
        push_downwards(points, strips, from, to)
    } else {
        push_upwards(points, strips, from, to)
    }
}

/// Adds the points from `from` up to `to`, last first.
fn push_downwards<I: IntNumber, A: Allocator>(
    points: &mut Vec<IntPoint<I>, A>,
    strips: &[IntPoint<I>],
    from: usize,
    to: usize,
) -> Result<(), AllocError>
    requires ordered { from ≤ to }
    requires within { to ≤ length strips.now }
    ensures ok { OnOk result
        (AddsPoints (plain_points I.whole strips.now) from to
        (plain_points I.whole points.old.items) (plain_points I.whole points.new.items)) }
{
    let mut k = to;
    while k > from {
        k -= 1;
        points.push(strips[k])?;
    }
    Ok(())
}

/// Adds the points from `from` up to `to`, in their order.
fn push_upwards<I: IntNumber, A: Allocator>(
    points: &mut Vec<IntPoint<I>, A>,
    strips: &[IntPoint<I>],
    from: usize,
    to: usize,
) -> Result<(), AllocError>
    requires ordered { from ≤ to }
    requires within { to ≤ length strips.now }
    ensures ok { OnOk result
        (AddsPoints (plain_points I.whole strips.now) from to
        (plain_points I.whole points.old.items) (plain_points I.whole points.new.items)) }
{
    points.extend_from_slice(&strips[from..to])?;
    Ok(())
}

/// Returns the two x-coordinates, moved into the span of the edge, in the order in which the edge rises.
fn x_along<I: IntNumber, C: EdgeCount>(e: &CountedEdge<I, C>, left: I, right: I) -> (I, I)
    requires { IsHeld I.limit (plain_edge I.whole C.counts e.now) }
    ensures first { IsAmidX (plain_edge I.whole C.counts e.now) (I.whole result.0) }
    ensures last { IsAmidX (plain_edge I.whole C.counts e.now) (I.whole result.1) }
    ensures between { let f = plain_edge I.whole C.counts e.now in
        (x : ℤ) → I.whole left ≤ℤ x → x ≤ℤ I.whole right → IsAmidX f x
        → (pos 0 ≤ℤ ((f.b.y -ℤ f.a.y) *ℤ (x -ℤ I.whole result.0)))
        × (pos 0 ≤ℤ ((f.b.y -ℤ f.a.y) *ℤ (I.whole result.1 -ℤ x))) }
{
    let first = x_within(e, left);
    let last = x_within(e, right);
    if is_less(e.a.y, e.b.y) {
        (first, last)
    } else {
        (last, first)
    }
}

/// Returns the x-coordinate in the span of the edge that is nearest to x.
fn x_within<I: IntNumber, C: EdgeCount>(e: &CountedEdge<I, C>, x: I) -> I
    ensures { let f = plain_edge I.whole C.counts e.now in
        I.whole result ≡ cond (int_lt (I.whole x) f.a.x) f.a.x (cond (int_lt f.b.x (I.whole x)) f.b.x (I.whole x)) }
{
    if is_less(x, e.a.x) {
        e.a.x
    } else if is_less(e.b.x, x) {
        e.b.x
    } else {
        x
    }
}

/// Returns a place as [`place_not_below`] does: the guessed place, if it is right.
fn near_start<I: IntNumber, C: EdgeCount>(
    strip: &Strip<'_, I>,
    e: &CountedEdge<I, C>,
    course: &Course<I>,
    x: I,
) -> usize
    requires one { IsHeld I.limit (plain_edge I.whole C.counts e.now) }
    requires amid { IsAmidX (plain_edge I.whole C.counts e.now) (I.whole x) }
    requires ordered { strip.now.from ≤ strip.now.to }
    requires within { strip.now.to ≤ length strip.now.points.now }
    requires upwards { AreUpwards (plain_points I.whole strip.now.points.now) strip.now.from strip.now.to }
    ensures ordered { strip.now.from ≤ result }
    ensures within { result ≤ strip.now.to }
    ensures below { ArePassedAbove (plain_edge I.whole C.counts e.now) (I.whole x)
        (plain_points I.whole strip.now.points.now) strip.now.from result }
{
    let guess = guessed_start(strip, course, x);
    if guess == strip.from || passes_above(e, x, strip.points[guess - 1].y) {
        guess
    } else {
        place_not_below(strip, e, x)
    }
}

/// Returns roughly the place up to which the points of a strip lie below the edge at x.
fn guessed_start<I: IntNumber>(strip: &Strip<'_, I>, course: &Course<I>, x: I) -> usize
    requires ordered { strip.now.from ≤ strip.now.to }
    requires within { strip.now.to ≤ length strip.now.points.now }
    ensures ordered { strip.now.from ≤ result }
    ensures within { result ≤ strip.now.to }
{
    if strip.from == strip.to {
        return strip.from;
    }
    let floor = strip.points[strip.from].y;
    let least = course.least_at(x, floor);
    strip.from + strip.points[strip.from..strip.to].partition_point(|v| v.y.distance(floor) < least)
}

/// Returns a place as [`place_above`] does: the guessed place, if it is right.
fn near_end<I: IntNumber, C: EdgeCount>(
    strip: &Strip<'_, I>,
    e: &CountedEdge<I, C>,
    course: &Course<I>,
    x: I,
) -> usize
    requires one { IsHeld I.limit (plain_edge I.whole C.counts e.now) }
    requires amid { IsAmidX (plain_edge I.whole C.counts e.now) (I.whole x) }
    requires ordered { strip.now.from ≤ strip.now.to }
    requires within { strip.now.to ≤ length strip.now.points.now }
    requires upwards { AreUpwards (plain_points I.whole strip.now.points.now) strip.now.from strip.now.to }
    ensures ordered { strip.now.from ≤ result }
    ensures within { result ≤ strip.now.to }
    ensures above { ArePassedBelow (plain_edge I.whole C.counts e.now) (I.whole x)
        (plain_points I.whole strip.now.points.now) result strip.now.to }
{
    let guess = guessed_end(strip, course, x);
    if guess == strip.to || passes_below(e, x, strip.points[guess].y) {
        guess
    } else {
        place_above(strip, e, x)
    }
}

/// Returns roughly the place from which on the points of a strip lie above the edge at x. Its points are looked at
/// by turns, the first one first.
fn guessed_end<I: IntNumber>(strip: &Strip<'_, I>, course: &Course<I>, x: I) -> usize
    requires ordered { strip.now.from ≤ strip.now.to }
    requires within { strip.now.to ≤ length strip.now.points.now }
    ensures ordered { strip.now.from ≤ result }
    ensures within { result ≤ strip.now.to }
{
    if strip.from == strip.to {
        return strip.from;
    }
    let floor = strip.points[strip.from].y;
    let most = course.most_at(x, floor);
    let mut at = strip.from;
    while at < strip.to && strip.points[at].y.distance(floor) <= most {
        at += 1;
    }
    at
}

/// Returns a place up to which the points of a strip lie below the edge, for points from x on in its rising direction.
fn place_not_below<I: IntNumber, C: EdgeCount>(
    strip: &Strip<'_, I>,
    e: &CountedEdge<I, C>,
    x: I,
) -> usize
    requires one { IsHeld I.limit (plain_edge I.whole C.counts e.now) }
    requires amid { IsAmidX (plain_edge I.whole C.counts e.now) (I.whole x) }
    requires ordered { strip.now.from ≤ strip.now.to }
    requires within { strip.now.to ≤ length strip.now.points.now }
    requires upwards { AreUpwards (plain_points I.whole strip.now.points.now) strip.now.from strip.now.to }
    ensures ordered { strip.now.from ≤ result }
    ensures within { result ≤ strip.now.to }
    ensures below { ArePassedAbove (plain_edge I.whole C.counts e.now) (I.whole x)
        (plain_points I.whole strip.now.points.now) strip.now.from result }
{
    let mut low = strip.from;
    let mut high = strip.to;
    while low < high {
        let middle = low + (high - low) / 2;
        if passes_above(e, x, strip.points[middle].y) {
            low = middle + 1;
        } else {
            high = middle;
        }
    }
    low
}

/// Returns a place from which on the points of a strip lie above the edge, for points up to x in its rising direction.
fn place_above<I: IntNumber, C: EdgeCount>(
    strip: &Strip<'_, I>,
    e: &CountedEdge<I, C>,
    x: I,
) -> usize
    requires one { IsHeld I.limit (plain_edge I.whole C.counts e.now) }
    requires amid { IsAmidX (plain_edge I.whole C.counts e.now) (I.whole x) }
    requires ordered { strip.now.from ≤ strip.now.to }
    requires within { strip.now.to ≤ length strip.now.points.now }
    requires upwards { AreUpwards (plain_points I.whole strip.now.points.now) strip.now.from strip.now.to }
    ensures ordered { strip.now.from ≤ result }
    ensures within { result ≤ strip.now.to }
    ensures above { ArePassedBelow (plain_edge I.whole C.counts e.now) (I.whole x)
        (plain_points I.whole strip.now.points.now) result strip.now.to }
{
    let mut low = strip.from;
    let mut high = place_over(strip, e, x);
    while low < high {
        let middle = low + (high - low) / 2;
        if passes_below(e, x, strip.points[middle].y) {
            high = middle;
        } else {
            low = middle + 1;
        }
    }
    high
}

/// Returns a place as [`place_above`] does, near the first point if few points lie near the edge: each step is twice as
/// long as the step before.
fn place_over<I: IntNumber, C: EdgeCount>(
    strip: &Strip<'_, I>,
    e: &CountedEdge<I, C>,
    x: I,
) -> usize
    requires one { IsHeld I.limit (plain_edge I.whole C.counts e.now) }
    requires amid { IsAmidX (plain_edge I.whole C.counts e.now) (I.whole x) }
    requires ordered { strip.now.from ≤ strip.now.to }
    requires within { strip.now.to ≤ length strip.now.points.now }
    requires upwards { AreUpwards (plain_points I.whole strip.now.points.now) strip.now.from strip.now.to }
    ensures ordered { strip.now.from ≤ result }
    ensures within { result ≤ strip.now.to }
    ensures above { ArePassedBelow (plain_edge I.whole C.counts e.now) (I.whole x)
        (plain_points I.whole strip.now.points.now) result strip.now.to }
{
    let mut at = strip.from;
    let mut step: usize = FIRST_STEP;
    while at < strip.to {
        if passes_below(e, x, strip.points[at].y) {
            return at;
        }
        at = at.saturating_add(step);
        step = step.saturating_add(step);
    }
    strip.to
}

/// Returns true only if the edge passes above the pixels of all points up to the height y, from x on in its rising
/// direction.
fn passes_above<I: IntNumber, C: EdgeCount>(e: &CountedEdge<I, C>, x: I, y: I) -> bool
    requires one { IsHeld I.limit (plain_edge I.whole C.counts e.now) }
    requires amid { IsAmidX (plain_edge I.whole C.counts e.now) (I.whole x) }
    ensures { IsTrue result → PassesAbove (plain_edge I.whole C.counts e.now) (I.whole x) (I.whole y) }
{
    if is_less(y, e.a.y) {
        is_less(y, e.b.y) || is_far_below(e, IntPoint::new(x, y))
    } else {
        is_less(y, e.b.y) && is_far_below(e, IntPoint::new(x, y))
    }
}

/// Returns true only if the edge passes below the pixels of all points from the height y on, up to x in its rising
/// direction.
fn passes_below<I: IntNumber, C: EdgeCount>(e: &CountedEdge<I, C>, x: I, y: I) -> bool
    requires one { IsHeld I.limit (plain_edge I.whole C.counts e.now) }
    requires amid { IsAmidX (plain_edge I.whole C.counts e.now) (I.whole x) }
    ensures { IsTrue result → PassesBelow (plain_edge I.whole C.counts e.now) (I.whole x) (I.whole y) }
{
    if is_less(e.a.y, y) {
        is_less(e.b.y, y) || is_far_above(e, IntPoint::new(x, y))
    } else {
        is_less(e.b.y, y) && is_far_above(e, IntPoint::new(x, y))
    }
}

/// Returns whether the point lies so far below the line of the edge that the line passes above its pixel.
fn is_far_below<I: IntNumber, C: EdgeCount>(e: &CountedEdge<I, C>, v: IntPoint<I>) -> bool
    requires edge { IsHeld I.limit (plain_edge I.whole C.counts e.now) }
    requires point { InRange I.limit (plain_point I.whole v) }
    ensures { result ≡ is_far_below (ends_of (plain_edge I.whole C.counts e.now)) (plain_point I.whole v) }
{
    is_below_bound(order_to_low(e, cross_at(e.a, e.b, v)))
}

/// Returns whether a number that compares as `low` with the lower bound of an edge lies below it. A line touches the
/// pixel where it is equal.
fn is_below_bound(low: Ordering) -> bool
    ensures { result ≡ is_lt low }
{
    low.is_lt()
}

/// Returns whether the point lies so far above the line of the edge that the line passes below its pixel.
fn is_far_above<I: IntNumber, C: EdgeCount>(e: &CountedEdge<I, C>, v: IntPoint<I>) -> bool
    requires edge { IsHeld I.limit (plain_edge I.whole C.counts e.now) }
    requires point { InRange I.limit (plain_point I.whole v) }
    ensures { result ≡ is_far_above (ends_of (plain_edge I.whole C.counts e.now)) (plain_point I.whole v) }
{
    order_to_high(e, cross_at(e.a, e.b, v)).is_gt()
}
