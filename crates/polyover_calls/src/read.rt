//! Contours and points from arrays.

ghost use Rattle.std.specs.Prelude.{◌≡◌, All, IfOk, MatchResult, IsOkUnless};
ghost use Rattle.overlay_geom.specs.Flat.{paths_in};
ghost use Rattle.overlay_geom.specs.Points.{plain_points, AllInRange};
ghost use Rattle.polyover_calls.specs.Arrays.{points_of, ranges_from};
ghost use Rattle.polyover_calls.specs.Reading.{AreContours, ArePoints, contours_at, HaveFault};

use crate::fault::Fault;
use crate::test::test_contours;
use overlay_geom::flat::contours::FlatContoursBuffer;
use overlay_geom::number::IntNumber;
use overlay_geom::point::IntPoint;
use std::alloc::Allocator;
use std::ops::Range;

/// The contours of the coordinates, one up to each end. They are tested first: `Ends` comes exactly where they do not
/// fit, `Range` exactly where they fit and a coordinate is out of range; `Memory` else.
pub fn read_contours<I: IntNumber, A: Allocator + Copy>(
    alloc: A,
    coordinates: &[I],
    ends: &[usize],
) -> Result<FlatContoursBuffer<I, A>, Fault>
    ensures read { MatchResult result
        (λ b. AreContours I.whole I.limit coordinates.now ends.now)
        (HaveFault I.whole I.limit coordinates.now ends.now) }
    ensures points { IfOk result (λ b. b.points.items ≡ points_of coordinates.now) }
    ensures ranges { IfOk result (λ b. b.ranges.items ≡ ranges_from 0 ends.now) }
    ensures contours { IfOk result (λ b. paths_in I.whole b.points.items b.ranges.items
        ≡ contours_at I.whole coordinates.now ends.now) }
    ensures in_range { IfOk result (λ b. All (AllInRange I.limit) (paths_in I.whole b.points.items b.ranges.items)) }
{
    test_contours(coordinates, ends)?;
    let contours = tested_contours(alloc, coordinates, ends)?;
    Ok(contours)
}

/// The contours of the coordinates, one up to each end, which have passed `test_contours`. The only refusal is
/// `Memory`.
pub(crate) fn tested_contours<I: IntNumber, A: Allocator + Copy>(
    alloc: A,
    coordinates: &[I],
    ends: &[usize],
) -> Result<FlatContoursBuffer<I, A>, Fault>
    requires { AreContours I.whole I.limit coordinates.now ends.now }
    ensures points { IfOk result (λ b. b.points.items ≡ points_of coordinates.now) }
    ensures ranges { IfOk result (λ b. b.ranges.items ≡ ranges_from 0 ends.now) }
    ensures contours { IfOk result (λ b. paths_in I.whole b.points.items b.ranges.items
        ≡ contours_at I.whole coordinates.now ends.now) }
    ensures in_range { IfOk result (λ b. All (AllInRange I.limit) (paths_in I.whole b.points.items b.ranges.items)) }
    ensures only { IsOkUnless result Fault.Memory }
{
    let points = points_of(alloc, coordinates)?;
    let ranges = ranges_of(alloc, ends)?;
    Ok(FlatContoursBuffer { points, ranges })
}

/// The points of the coordinates, which have passed `test_points`. The only refusal is `Memory`.
pub(crate) fn tested_points<I: IntNumber, A: Allocator>(
    alloc: A,
    coordinates: &[I],
) -> Result<Vec<IntPoint<I>, A>, Fault>
    requires { ArePoints I.whole I.limit coordinates.now }
    ensures points { IfOk result (λ v. v.items ≡ points_of coordinates.now) }
    ensures in_range { IfOk result (λ v. AllInRange I.limit (plain_points I.whole v.items)) }
    ensures only { IsOkUnless result Fault.Memory }
{
    let points = points_of(alloc, coordinates)?;
    Ok(points)
}

// The points of the coordinates, each x followed by its y.
fn points_of<I: IntNumber, A: Allocator>(
    alloc: A,
    coordinates: &[I],
) -> Result<Vec<IntPoint<I>, A>, Fault>
    ensures points { IfOk result (λ v. v.items ≡ points_of coordinates.now) }
    ensures only { IsOkUnless result Fault.Memory }
{
    let mut points = Vec::new(alloc);
    let mut before = None;
    for coordinate in coordinates {
        match before {
            None => before = Some(*coordinate),
            Some(x) => {
                points.push(IntPoint { x, y: *coordinate })?;
                before = None;
            }
        }
    }
    Ok(points)
}

// The ranges of the contours, each from the end before it to its own.
fn ranges_of<A: Allocator>(alloc: A, ends: &[usize]) -> Result<Vec<Range<usize>, A>, Fault>
    ensures ranges { IfOk result (λ v. v.items ≡ ranges_from 0 ends.now) }
    ensures only { IsOkUnless result Fault.Memory }
{
    let mut ranges = Vec::new(alloc);
    let mut from = 0;
    for end in ends {
        ranges.push(from..*end)?;
        from = *end;
    }
    Ok(ranges)
}
