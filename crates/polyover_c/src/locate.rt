//! Where points lie in contours.

ghost use Rattle.std.specs.Prelude.{◌≡◌};
ghost use Rattle.polyover_calls.specs.Given.{contours_of};
ghost use Rattle.polyover_calls.specs.Located.{LocatingEnds};
ghost use Rattle.polyover_calls.specs.Statuses.{code_of};
ghost use Rattle.polyover_calls.specs.declared.status.Status.{Status};

use polyover_calls::arrays::{Contours32, Contours64};
use polyover_calls::locate::locate_arrays;
use std::alloc::Global;

/// Where each point lies in the contours, which are one shape, written as a number for each: the code of a status.
/// Where a contour is not resolved, the number of the first such one is written.
#[unsafe(no_mangle)]
pub extern "C" fn polyover_locate(
    alloc: Global,
    shape: &Contours64,
    points: &[i64],
    locations: &mut [u8],
    unresolved: &mut usize,
) -> u32
    ensures { (s : Status) × LocatingEnds (λ z. z) 4611686018427387903
        (contours_of shape.now.coordinates.now shape.now.ends.now)
        points.now
        (record { locations = locations.old; unresolved = unresolved.old })
        (record { locations = locations.new; unresolved = unresolved.new })
        s × (result ≡ code_of s) }
{
    locate_arrays(alloc, &shape.given(), points, locations, unresolved).code()
}

/// `polyover_locate` at 32 bits.
#[unsafe(no_mangle)]
pub extern "C" fn polyover_locate_32(
    alloc: Global,
    shape: &Contours32,
    points: &[i32],
    locations: &mut [u8],
    unresolved: &mut usize,
) -> u32
    ensures { (s : Status) × LocatingEnds (λ z. z) 1073741823
        (contours_of shape.now.coordinates.now shape.now.ends.now)
        points.now
        (record { locations = locations.old; unresolved = unresolved.old })
        (record { locations = locations.new; unresolved = unresolved.new })
        s × (result ≡ code_of s) }
{
    locate_arrays(alloc, &shape.given(), points, locations, unresolved).code()
}
