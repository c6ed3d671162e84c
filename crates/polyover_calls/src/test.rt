//! Whether arrays have contours in the coordinate range. No call here takes memory.

ghost use Rattle.std.specs.Prelude.{◌≡◌, ◌↔◌, IsTrue, MatchResult, length};
ghost use Rattle.polyover_calls.specs.Arrays.{are_ends, points_of, rise_from};
ghost use Rattle.polyover_calls.specs.Reading.{AreContours, ArePoints, AreWithin, HaveOwnFault, PointsHaveOwnFault};

use crate::fault::Fault;
use overlay_geom::number::IntNumber;

/// Returns whether the ends part `coordinates` coordinates into contours: the coordinates are an even count, no
/// end is below the one before it, and the last end is the count of points; without ends there is no coordinate.
pub(crate) fn are_ends(ends: &[usize], coordinates: usize) -> bool
    ensures { result ≡ are_ends ends.now coordinates }
{
    coordinates % 2 == 0 && rise_to(ends, coordinates / 2)
}

// Whether the ends rise from 0, step by step or not at all, to the count.
fn rise_to(ends: &[usize], count: usize) -> bool
    ensures { result ≡ rise_from 0 ends.now count }
{
    let mut from = 0;
    for end in ends {
        if *end < from {
            return false;
        }
        from = *end;
    }
    from == count
}

/// Returns whether each coordinate is in the coordinate range.
pub fn are_within<I: IntNumber>(coordinates: &[I]) -> bool
    ensures { IsTrue result ↔ AreWithin I.whole I.limit coordinates.now }
{
    for coordinate in coordinates {
        if !coordinate.is_in_range() {
            return false;
        }
    }
    true
}

/// Tests whether the coordinates have contours in the coordinate range, one up to each end: `Ends` comes exactly where
/// they do not fit, `Range` exactly where they fit and a coordinate is out of range, and no other refusal.
pub(crate) fn test_contours<I: IntNumber>(coordinates: &[I], ends: &[usize]) -> Result<(), Fault>
    ensures { MatchResult result
        (λ _. AreContours I.whole I.limit coordinates.now ends.now)
        (HaveOwnFault I.whole I.limit coordinates.now ends.now) }
{
    if !are_ends(ends, coordinates.len()) {
        return Err(Fault::Ends);
    }
    if !are_within(coordinates) {
        return Err(Fault::Range);
    }
    Ok(())
}

/// Tests whether the coordinates are points in the coordinate range: `Ends` comes exactly where they are an odd count,
/// `Range` exactly where they are an even one and a coordinate is out of range, and no other refusal.
pub(crate) fn test_points<I: IntNumber>(coordinates: &[I]) -> Result<(), Fault>
    ensures { MatchResult result
        (λ _. ArePoints I.whole I.limit coordinates.now)
        (PointsHaveOwnFault I.whole I.limit coordinates.now) }
{
    if coordinates.len() % 2 != 0 {
        return Err(Fault::Ends);
    }
    if !are_within(coordinates) {
        return Err(Fault::Range);
    }
    Ok(())
}

/// Returns how many points the coordinates are.
#[tactic(auto, using(crate::proofs::PointCounts::points_counted))]
pub(crate) fn count_points<I: IntNumber>(coordinates: &[I]) -> usize
    ensures { result ≡ length (points_of coordinates.now) }
{
    coordinates.len() / 2
}
