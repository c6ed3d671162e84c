//! Meetings that repeat, dropped while meetings are gathered: of many edges through one point each pair gives two.

ghost use Rattle.std.specs.Prelude.{◌≡◌, ◌&&◌, nat_eq, OnOk};
ghost use Rattle.overlay_geom.specs.Plane.{point_eq};
ghost use Rattle.overlay_geom.specs.Points.{plain_point};
ghost use Rattle.overlay_arrange.specs.HotPoints.{HaveSameMembers};
ghost use Rattle.overlay_arrange.specs.Meetings.{plain_meetings};

use crate::limits::{LEAST_LENGTH, next_limit};
use crate::meetings::Meeting;
use overlay_geom::edge_pair::is_same;
use overlay_geom::number::IntNumber;
use overlay_order::edge::compare_points;
use std::alloc::{AllocError, Allocator};
use std::cmp::Ordering;

// How many times as long a list with few repeated meetings may grow before they are dropped again.
const MOST_GROWTH: usize = 16;

/// Drops meetings that repeat, if there are `most` or more of them. Returns the number of meetings from which on this
/// is to be done again.
pub(crate) fn drop_repeats_from<I: IntNumber, A: Allocator>(
    meetings: &mut Vec<Meeting<I>, A>,
    most: usize,
) -> Result<usize, AllocError>
    ensures ok { OnOk result (HaveSameMembers
        (plain_meetings I.whole meetings.old.items) (plain_meetings I.whole meetings.new.items)) }
{
    let count = meetings.len();
    if count < most {
        return Ok(most);
    }
    drop_repeats(meetings)?;
    Ok(next_limit(count, meetings.len(), LEAST_LENGTH, MOST_GROWTH))
}

// Drops the meetings that repeat.
fn drop_repeats<I: IntNumber, A: Allocator>(
    meetings: &mut Vec<Meeting<I>, A>,
) -> Result<(), AllocError>
    ensures ok { OnOk result (HaveSameMembers
        (plain_meetings I.whole meetings.old.items) (plain_meetings I.whole meetings.new.items)) }
{
    meetings.sort_by(|m, n| compare_meetings(m, n))?;
    meetings.dedup_by(|m, n| is_repeated(m, n));
    Ok(())
}

// Compares two meetings, by the places of their edges and then by their points.
fn compare_meetings<I: IntNumber>(m: &Meeting<I>, n: &Meeting<I>) -> Ordering {
    match m.place.cmp(&n.place) {
        Ordering::Equal => compare_points(m.point, n.point),
        other => other,
    }
}

// Returns whether the two meetings are of one edge, at one point.
fn is_repeated<I: IntNumber>(m: &Meeting<I>, n: &Meeting<I>) -> bool
    ensures { result ≡ (nat_eq m.now.place n.now.place
        && point_eq (plain_point I.whole m.now.point) (plain_point I.whole n.now.point)) }
{
    m.place == n.place && is_same(m.point, n.point)
}
