//! Where points in arrays lie in contours in arrays.

ghost use Rattle.std.specs.Prelude.{◌≡◌, All, IfOk, IsOkUnless, MatchResult, map};
ghost use Rattle.overlay_geom.specs.Flat.{paths_in};
ghost use Rattle.overlay_geom.specs.Points.{plain_points, AllInRange};
ghost use Rattle.overlay_geom.specs.Resolved.{IsResolved};
ghost use Rattle.polyover_calls.specs.Given.{contours_of};
ghost use Rattle.polyover_calls.specs.Located.{AreNumbers, LocatingEnds, number_of};
ghost use Rattle.polyover_calls.specs.declared.status.Status.TheVariants.{Done};

use crate::given::Contours;
use crate::read::{tested_contours, tested_points};
use crate::shape::{first_unresolved, shape_of};
use crate::status::Status;
use crate::test::{count_points, test_contours, test_points};
use crate::write::write_over;
use overlay_geom::error::OverlayError;
use overlay_geom::flat::contours::FlatContoursBuffer;
use overlay_geom::integer::OverlayInt;
use overlay_geom::point::IntPoint;
use overlay_located::resolved_contours::ResolvedContours;
use overlay_relate::containment::IntPointContainment;
use overlay_relate::location::PointLocation;
use std::alloc::{AllocError, Global};

/// Where each point lies in the contours, as one shape, written as a number for each; or, where a contour is not
/// resolved, the number of the first such one.
pub fn locate_arrays<I: OverlayInt>(
    alloc: Global,
    shape: &Contours<I>,
    points: &[I],
    locations: &mut [u8],
    unresolved: &mut usize,
) -> Status
    ensures { LocatingEnds I.whole I.limit
        (contours_of shape.now.coordinates.now shape.now.ends.now)
        points.now
        (record { locations = locations.old; unresolved = unresolved.old })
        (record { locations = locations.new; unresolved = unresolved.new })
        result }
{
    match locate(alloc, shape, points, locations, unresolved) {
        Ok(()) => Status::Done,
        Err(status) => status,
    }
}

// The same, where the status `Done` is no error. What is given is tested before memory is taken, but for whether each
// contour is resolved.
#[tactic(auto, using(crate::proofs::Located::shape_unread, crate::proofs::Located::points_unread, crate::proofs::Located::no_places, crate::proofs::Located::unresolved_ends, crate::proofs::Located::without_memory, crate::proofs::Located::located_ends, crate::proofs::Located::fit_numbers))]
fn locate<I: OverlayInt>(
    alloc: Global,
    shape: &Contours<I>,
    points: &[I],
    locations: &mut [u8],
    unresolved: &mut usize,
) -> Result<(), Status>
    ensures { MatchResult result
        (λ _. LocatingEnds I.whole I.limit
        (contours_of shape.now.coordinates.now shape.now.ends.now)
        points.now
        (record { locations = locations.old; unresolved = unresolved.old })
        (record { locations = locations.new; unresolved = unresolved.new })
        Done)
        (LocatingEnds I.whole I.limit
        (contours_of shape.now.coordinates.now shape.now.ends.now)
        points.now
        (record { locations = locations.old; unresolved = unresolved.old })
        (record { locations = locations.new; unresolved = unresolved.new })) }
{
    test_contours(shape.coordinates, shape.ends)?;
    test_points(points)?;
    if locations.len() < count_points(points) {
        return Err(Status::TooSmall);
    }
    let contours = tested_contours(alloc, shape.coordinates, shape.ends)?;
    let points = tested_points(alloc, points)?;
    let found = first_unresolved(alloc, &contours)?;
    if let Some(contour) = found {
        *unresolved = contour;
        return Err(Status::NotResolved);
    }
    let numbers = numbers_in(alloc, &contours, &points)?;
    write_over(locations, &numbers);
    Ok(())
}

// Where each point lies in the contours, as one shape. The only refusal is `Memory`.
fn numbers_in<I: OverlayInt>(
    alloc: Global,
    contours: &FlatContoursBuffer<I, Global>,
    points: &[IntPoint<I>],
) -> Result<Vec<u8, Global>, OverlayError>
    requires in_range { All (AllInRange I.limit)
        (paths_in I.whole contours.now.points.items contours.now.ranges.items) }
    requires resolved { All IsResolved (paths_in I.whole contours.now.points.items contours.now.ranges.items) }
    requires points_in_range { AllInRange I.limit (plain_points I.whole points.now) }
    ensures numbers { IfOk result (λ v. AreNumbers
        (paths_in I.whole contours.now.points.items contours.now.ranges.items)
        (plain_points I.whole points.now) v.items) }
    ensures only { IsOkUnless result OverlayError.Memory }
{
    let shape = shape_of(alloc, contours)?;
    let resolved = ResolvedContours { contours: &shape };
    let locations = resolved.locate_points(alloc, points)?;
    let numbers = numbers_of(alloc, &locations)?;
    Ok(numbers)
}

// The number of each location.
fn numbers_of(alloc: Global, locations: &[PointLocation]) -> Result<Vec<u8, Global>, AllocError>
    ensures numbers { IfOk result (λ v. v.items ≡ map number_of locations.now) }
{
    let mut numbers = Vec::with_capacity(alloc, locations.len())?;
    for location in locations {
        numbers.push(number_of(*location))?;
    }
    Ok(numbers)
}

/// The number that C knows the location by.
pub(crate) fn number_of(location: PointLocation) -> u8
    ensures { result ≡ number_of location }
{
    match location {
        PointLocation::Outside => 0,
        PointLocation::Inside => 1,
        PointLocation::Boundary => 2,
    }
}
