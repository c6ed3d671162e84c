//! Shapes as they are given, and where points lie in them.

ghost use Rattle.std.specs.Prelude.{◌≡◌};
ghost use Rattle.polyover_calls.specs.Given.{contours_of};
ghost use Rattle.polyover_calls.specs.Statuses.{code_of};
ghost use Rattle.polyover_calls.specs.declared.status.Status.{Status};
ghost use Rattle.polyover_located.specs.Asked.{ExactAskingEnds};
ghost use Rattle.polyover_located.specs.Held.{CanBeAsked, parts_at_32, parts_at_64};
ghost use Rattle.polyover_located.specs.Prepared.{IsExactlyPreparedSo};

use polyover_calls::arrays::{Contours32, Contours64};
use polyover_located::points::locate_exactly;
use polyover_located::prepare::shape_held;
use polyover_located::shape::{Exact32, Exact64};
use std::alloc::Global;

/// Hands out the shape that the contours make under the fill rule, as they are given, to be asked where points lie: the
/// code of a status. After any but `Done` it has no edges.
#[unsafe(no_mangle)]
pub extern "C" fn polyover_prepare_exact<'a>(
    alloc: Global,
    fill: u32,
    contours: &Contours64,
    shape: &mut Exact64<'a>,
) -> u32
    ensures { IsExactlyPreparedSo (λ z. z) 4611686018427387903 fill
        (contours_of contours.now.coordinates.now contours.now.ends.now)
        (parts_at_64 shape.new) result }
{
    shape.give(&shape_held(alloc, fill, &contours.given()))
}

/// `polyover_prepare_exact` at 32 bits.
#[unsafe(no_mangle)]
pub extern "C" fn polyover_prepare_exact_32<'a>(
    alloc: Global,
    fill: u32,
    contours: &Contours32,
    shape: &mut Exact32<'a>,
) -> u32
    ensures { IsExactlyPreparedSo (λ z. z) 1073741823 fill
        (contours_of contours.now.coordinates.now contours.now.ends.now)
        (parts_at_32 shape.new) result }
{
    shape.give(&shape_held(alloc, fill, &contours.given()))
}

/// Writes where each point lies in a shape that `polyover_prepare_exact` handed out, or in one without edges, as a
/// number for each, and returns the code of a status. Nothing is rounded. Where memory is refused it takes longer.
#[unsafe(no_mangle)]
pub extern "C" fn polyover_exact_locate(
    alloc: Global,
    shape: &Exact64,
    points: &[i64],
    locations: &mut [u8],
) -> u32
    requires { CanBeAsked 4611686018427387903 (parts_at_64 shape.now) }
    ensures { (s : Status) × ExactAskingEnds (λ z. z) 4611686018427387903 (parts_at_64 shape.now) points.now
        locations.old locations.new s × (result ≡ code_of s) }
{
    locate_exactly(alloc, &shape.held(), points, locations).code()
}

/// `polyover_exact_locate` at 32 bits.
#[unsafe(no_mangle)]
pub extern "C" fn polyover_exact_locate_32(
    alloc: Global,
    shape: &Exact32,
    points: &[i32],
    locations: &mut [u8],
) -> u32
    requires { CanBeAsked 1073741823 (parts_at_32 shape.now) }
    ensures { (s : Status) × ExactAskingEnds (λ z. z) 1073741823 (parts_at_32 shape.now) points.now
        locations.old locations.new s × (result ≡ code_of s) }
{
    locate_exactly(alloc, &shape.held(), points, locations).code()
}
