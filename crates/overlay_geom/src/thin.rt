//! Thinning of closed lists of points: removal of collinear points.

ghost use Rattle.std.specs.Prelude.{◌≡◌, ◌↔◌, ◌≤◌, [], ◌∷◌, ◌++◌, length, slice_range};
ghost use Rattle.std.specs.Prelude.{IfOk, OnOk, OnErr, IsTrue};
ghost use Rattle.overlay_geom.specs.Points.{plain_point, plain_points, InRange, AllInRange};
ghost use Rattle.overlay_geom.specs.Thinned.{IsOnOneLine, IsThinned};
ghost use Rattle.overlay_geom.specs.FlatContours.{IsThinnedBehind};
ghost use Rattle.overlay_geom.specs.Narrowed.{IsNarrowed, IsNarrowedBefore, IsBentInside};

use crate::number::{IntNumber, WideIntNumber};
use crate::point::IntPoint;
use crate::vector::cross_at;
use std::alloc::{AllocError, Allocator};

/// Returns the closed list without the points that are collinear with their two neighbours. It drops them one by one
/// until none is left.
pub fn thinned<I: IntNumber, A: Allocator>(
    alloc: A,
    points: &[IntPoint<I>],
) -> Result<Vec<IntPoint<I>, A>, AllocError>
    requires { AllInRange I.limit (plain_points I.whole points.now) }
    ensures ok { IfOk result (λ v.
        IsThinned (plain_points I.whole points.now) (plain_points I.whole v.items)) }
    ensures in_range { IfOk result (λ v. AllInRange I.limit (plain_points I.whole v.items)) }
{
    let mut bent = Vec::new(alloc);
    write_bent(&mut bent, points)?;
    let (from, to) = bent_part(&bent);
    bent.drain(..from);
    bent.truncate(to - from);
    Ok(bent)
}

/// Adds the points that [`thinned`] gives to the output, behind the points that it has. The room lends its memory. On a
/// refusal the output stays as it is.
pub fn push_thinned<I: IntNumber, A: Allocator, B: Allocator>(
    output: &mut Vec<IntPoint<I>, A>,
    room: &mut Vec<IntPoint<I>, B>,
    points: &[IntPoint<I>],
) -> Result<(), AllocError>
    requires { AllInRange I.limit (plain_points I.whole points.now) }
    ensures ok { OnOk result (IsThinnedBehind I.whole I.limit (plain_points I.whole points.now)
        output.old.items output.new.items) }
    ensures err { OnErr result (output.new.items ≡ output.old.items) }
{
    write_bent(room, points)?;
    let (from, to) = bent_part(room);
    output.extend_from_slice(&room[from..to])?;
    Ok(())
}

// Puts the points into the list without those that are collinear with the points before and after them, and drops those
// that it had. Each point is dropped before the next is read.
fn write_bent<I: IntNumber, A: Allocator>(
    bent: &mut Vec<IntPoint<I>, A>,
    points: &[IntPoint<I>],
) -> Result<(), AllocError>
    requires { AllInRange I.limit (plain_points I.whole points.now) }
    ensures narrowed { OnOk result
        (IsNarrowed (plain_points I.whole points.now) (plain_points I.whole bent.new.items)) }
    ensures bent { OnOk result (IsBentInside (plain_points I.whole bent.new.items)) }
    ensures in_range { OnOk result (AllInRange I.limit (plain_points I.whole bent.new.items)) }
{
    bent.clear();
    bent.reserve(points.len())?;
    for point in points {
        pop_straight(bent, *point);
        bent.push(*point)?;
    }
    Ok(())
}

// Removes last points while they are collinear with the point before them and `next`.
fn pop_straight<I: IntNumber, A: Allocator>(bent: &mut Vec<IntPoint<I>, A>, next: IntPoint<I>)
    requires bent { IsBentInside (plain_points I.whole bent.old.items) }
    requires in_range { AllInRange I.limit (plain_points I.whole bent.old.items) }
    requires next { InRange I.limit (plain_point I.whole next) }
    ensures narrowed { IsNarrowedBefore (plain_point I.whole next)
        (plain_points I.whole bent.old.items) (plain_points I.whole bent.new.items) }
    ensures bent { IsBentInside (plain_points I.whole bent.new.items ++ plain_point I.whole next ∷ []) }
    ensures in_range { AllInRange I.limit (plain_points I.whole bent.new.items) }
{
    while bent.len() >= 2 && is_straight(bent[bent.len() - 2], bent[bent.len() - 1], next) {
        bent.pop();
    }
}

// Returns the range of the points that are left once all points collinear with their two neighbours are dropped, one by
// one. Only the two ends can be collinear so. Of fewer than three points none is left.
fn bent_part<I: IntNumber>(points: &[IntPoint<I>]) -> (usize, usize)
    requires bent { IsBentInside (plain_points I.whole points.now) }
    requires in_range { AllInRange I.limit (plain_points I.whole points.now) }
    ensures thinned { IsThinned (plain_points I.whole points.now)
        (plain_points I.whole (slice_range points.now result.0 result.1)) }
    ensures ordered { result.0 ≤ result.1 }
    ensures within { result.1 ≤ length points.now }
{
    let mut from = 0;
    let mut to = points.len();
    while to - from >= 3 {
        if is_straight(points[to - 2], points[to - 1], points[from]) {
            to -= 1;
        } else if is_straight(points[to - 1], points[from], points[from + 1]) {
            from += 1;
        } else {
            return (from, to);
        }
    }
    (from, from)
}

// Returns whether the three points are collinear.
fn is_straight<I: IntNumber>(u: IntPoint<I>, v: IntPoint<I>, w: IntPoint<I>) -> bool
    requires first { InRange I.limit (plain_point I.whole u) }
    requires second { InRange I.limit (plain_point I.whole v) }
    requires third { InRange I.limit (plain_point I.whole w) }
    ensures { IsTrue result
        ↔ IsOnOneLine (plain_point I.whole u) (plain_point I.whole v) (plain_point I.whole w) }
{
    cross_at(u, v, w).sign().is_eq()
}
