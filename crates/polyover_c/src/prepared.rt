//! Prepared shapes, and where points lie in them.

ghost use Rattle.std.specs.Prelude.{◌≡◌};
ghost use Rattle.polyover_calls.specs.Given.{contours_of};
ghost use Rattle.polyover_calls.specs.Prepared.{AskingEnds, CanBeAsked, IsPreparedSo, parts_at_32, parts_at_64};
ghost use Rattle.polyover_calls.specs.Statuses.{code_of};
ghost use Rattle.polyover_calls.specs.declared.status.Status.{Status};

use polyover_calls::arrays::{Contours32, Contours64};
use polyover_calls::prepare::prepared_held;
use polyover_calls::prepared::{Prepared32, Prepared64};
use polyover_calls::prepared_points::locate_prepared;
use std::alloc::Global;

/// Hands out the shape that the contours make under the fill rule, prepared to be asked where points lie: the code of a
/// status. After any but `Done` it has no boundary.
#[unsafe(no_mangle)]
pub extern "C" fn polyover_prepare<'a>(
    alloc: Global,
    fill: u32,
    solver: u32,
    contours: &Contours64,
    prepared: &mut Prepared64<'a>,
) -> u32
    ensures { IsPreparedSo (λ z. z) 4611686018427387903 fill solver
        (contours_of contours.now.coordinates.now contours.now.ends.now)
        (parts_at_64 prepared.new) result }
{
    prepared.give(&prepared_held(alloc, fill, solver, &contours.given()))
}

/// `polyover_prepare` at 32 bits.
#[unsafe(no_mangle)]
pub extern "C" fn polyover_prepare_32<'a>(
    alloc: Global,
    fill: u32,
    solver: u32,
    contours: &Contours32,
    prepared: &mut Prepared32<'a>,
) -> u32
    ensures { IsPreparedSo (λ z. z) 1073741823 fill solver
        (contours_of contours.now.coordinates.now contours.now.ends.now)
        (parts_at_32 prepared.new) result }
{
    prepared.give(&prepared_held(alloc, fill, solver, &contours.given()))
}

/// Where each point lies in a shape that `polyover_prepare` handed out, or in one without a boundary, written as a
/// number for each: the code of a status. No memory is taken.
#[unsafe(no_mangle)]
pub extern "C" fn polyover_prepared_locate(
    prepared: &Prepared64,
    points: &[i64],
    locations: &mut [u8],
) -> u32
    requires { CanBeAsked 4611686018427387903 (parts_at_64 prepared.now) }
    ensures { (s : Status) × AskingEnds (λ z. z) 4611686018427387903 (parts_at_64 prepared.now) points.now
        locations.old locations.new s × (result ≡ code_of s) }
{
    locate_prepared(&prepared.parts(), points, locations).code()
}

/// `polyover_prepared_locate` at 32 bits.
#[unsafe(no_mangle)]
pub extern "C" fn polyover_prepared_locate_32(
    prepared: &Prepared32,
    points: &[i32],
    locations: &mut [u8],
) -> u32
    requires { CanBeAsked 1073741823 (parts_at_32 prepared.now) }
    ensures { (s : Status) × AskingEnds (λ z. z) 1073741823 (parts_at_32 prepared.now) points.now
        locations.old locations.new s × (result ≡ code_of s) }
{
    locate_prepared(&prepared.parts(), points, locations).code()
}
