//! The shapes of contours as far as they are known from the start, and the number of shapes.

ghost use Rattle.std.specs.Prelude.{◌≡◌, length, filter, IfOk};
ghost use Rattle.overlay_plane.specs.BoundContours.{known_in};
ghost use Rattle.overlay_plane.specs.RoledContours.{is_outline};
ghost use Rattle.overlay_walk.specs.GroupedContours.{plain_contours};

use overlay_geom::number::IntNumber;
use overlay_walk::contour::Contour;
use std::alloc::{AllocError, Allocator};

/// Returns for each contour the number of its shape if it is known from the start, or None for a hole whose shape is
/// still to be found.
pub(crate) fn shapes_known<I: IntNumber, A: Allocator>(
    alloc: A,
    contours: &[Contour<I, A>],
) -> Result<Vec<Option<usize>, A>, AllocError>
    ensures ok { IfOk result (λ v. v.items ≡ known_in (plain_contours I.whole contours.now)) }
{
    let mut known = Vec::with_capacity(alloc, contours.len())?;
    for i in 0..contours.len() {
        known.push(contours[i].role.shape())?;
    }
    Ok(known)
}

/// Returns the number of outlines.
pub(crate) fn shape_count<I: IntNumber, A: Allocator>(contours: &[Contour<I, A>]) -> usize
    ensures { result ≡ length (filter (λ c. is_outline c.role) (plain_contours I.whole contours.now)) }
{
    let mut count = 0;
    for i in 0..contours.len() {
        if contours[i].role.is_outline() {
            count += 1;
        }
    }
    count
}
