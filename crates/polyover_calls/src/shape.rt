//! Contours in arrays as one shape, each of which is resolved.

ghost use Rattle.std.specs.Prelude.{◌≡◌, All, IfSome, IfOk, IsOkUnless, MatchResult};
ghost use Rattle.std.specs.Option.{IfNone};
ghost use Rattle.overlay_geom.specs.Flat.{paths_in};
ghost use Rattle.overlay_geom.specs.Paths.{paths_of_shape};
ghost use Rattle.overlay_geom.specs.Points.{AllInRange};
ghost use Rattle.overlay_geom.specs.Resolved.{IsResolved};
ghost use Rattle.polyover_calls.specs.Located.{IsFirstUnresolved};
ghost use Rattle.polyover_calls.specs.Statuses.{ReadsAs};
ghost use Rattle.polyover_calls.specs.declared.status.Status.TheVariants.{Done};

use crate::read::read_contours;
use crate::status::Status;
use overlay_geom::error::OverlayError;
use overlay_geom::flat::contours::FlatContoursBuffer;
use overlay_geom::number::IntNumber;
use overlay_geom::path::IntShape;
use overlay_geom::resource::IntShapeResource;
use overlay_relate::resolved::is_resolved_in;
use std::alloc::{AllocError, Global};

/// The status with which contours are read as a shape.
pub fn status_read<I: IntNumber>(alloc: Global, coordinates: &[I], ends: &[usize]) -> Status
    ensures { ReadsAs I.whole I.limit coordinates.now ends.now result }
{
    match test_resolved(alloc, coordinates, ends) {
        Ok(()) => Status::Done,
        Err(status) => status,
    }
}

// The same, where the status `Done` is no error.
#[tactic(auto, using(crate::proofs::ShapesRead::fault_read, crate::proofs::ShapesRead::without_memory, crate::proofs::ShapesRead::unresolved_read, crate::proofs::ShapesRead::shape_read))]
fn test_resolved<I: IntNumber>(
    alloc: Global,
    coordinates: &[I],
    ends: &[usize],
) -> Result<(), Status>
    ensures { MatchResult result (λ _. ReadsAs I.whole I.limit coordinates.now ends.now Done)
        (ReadsAs I.whole I.limit coordinates.now ends.now) }
{
    let contours = read_contours(alloc, coordinates, ends)?;
    let found = first_unresolved(alloc, &contours)?;
    match found {
        Some(_contour) => Err(Status::NotResolved),
        None => Ok(()),
    }
}

/// The number of the first contour that is not resolved, if there is one. The only refusal is `Memory`.
pub(crate) fn first_unresolved<I: IntNumber>(
    alloc: Global,
    contours: &FlatContoursBuffer<I, Global>,
) -> Result<Option<usize>, OverlayError>
    requires { All (AllInRange I.limit) (paths_in I.whole contours.now.points.items contours.now.ranges.items) }
    ensures first { IfOk result (λ o. IfSome o
        (IsFirstUnresolved (paths_in I.whole contours.now.points.items contours.now.ranges.items))) }
    ensures none { IfOk result (λ o. IfNone o
        (All IsResolved (paths_in I.whole contours.now.points.items contours.now.ranges.items))) }
    ensures only { IsOkUnless result OverlayError.Memory }
{
    for index in 0..contours.path_count() {
        let points = contours.path(index);
        let is_resolved = is_resolved_in(alloc, points)?;
        if !is_resolved {
            return Ok(Some(index));
        }
    }
    Ok(None)
}

/// The contours as one shape.
pub(crate) fn shape_of<I: IntNumber>(
    alloc: Global,
    contours: &FlatContoursBuffer<I, Global>,
) -> Result<IntShape<I, Global>, AllocError>
    ensures shape { IfOk result (λ s. paths_of_shape I.whole s.items
        ≡ paths_in I.whole contours.now.points.items contours.now.ranges.items) }
{
    let mut shape = Vec::new(alloc);
    for index in 0..contours.path_count() {
        let points = contours.path(index);
        let mut contour = Vec::new(alloc);
        contour.extend_from_slice(points)?;
        shape.push(contour)?;
    }
    Ok(shape)
}
