//! Tests of coordinates and of contours.

ghost use Rattle.std.specs.Prelude.{◌≡◌, ◌↔◌, ◌≤◌};
ghost use Rattle.polyover_calls.specs.Reading.{AreWithin};
ghost use Rattle.polyover_calls.specs.Statuses.{ReadsAs, code_of};
ghost use Rattle.polyover_calls.specs.declared.status.Status.{Status};

use polyover_calls::arrays::{Contours32, Contours64};
use polyover_calls::shape::status_read;
use polyover_calls::test::are_within;
use std::alloc::Global;

/// Whether each coordinate is in the coordinate range: 1, or 0.
#[unsafe(no_mangle)]
pub extern "C" fn polyover_in_range(coordinates: &[i64]) -> u32
    ensures in_range { (result ≡ 1) ↔ AreWithin (λ z. z) 4611686018427387903 coordinates.now }
    ensures bit { result ≤ 1 }
{
    if are_within(coordinates) { 1 } else { 0 }
}

/// `polyover_in_range` at 32 bits.
#[unsafe(no_mangle)]
pub extern "C" fn polyover_in_range_32(coordinates: &[i32]) -> u32
    ensures in_range { (result ≡ 1) ↔ AreWithin (λ z. z) 1073741823 coordinates.now }
    ensures bit { result ≤ 1 }
{
    if are_within(coordinates) { 1 } else { 0 }
}

/// Whether the contours fit their arrays, are in the coordinate range and resolved: the code of a status.
#[unsafe(no_mangle)]
pub extern "C" fn polyover_resolved(alloc: Global, shape: &Contours64) -> u32
    ensures { (s : Status) × ReadsAs (λ z. z) 4611686018427387903 shape.now.coordinates.now shape.now.ends.now s
        × (result ≡ code_of s) }
{
    status_read(alloc, shape.coordinates, shape.ends).code()
}

/// `polyover_resolved` at 32 bits.
#[unsafe(no_mangle)]
pub extern "C" fn polyover_resolved_32(alloc: Global, shape: &Contours32) -> u32
    ensures { (s : Status) × ReadsAs (λ z. z) 1073741823 shape.now.coordinates.now shape.now.ends.now s
        × (result ≡ code_of s) }
{
    status_read(alloc, shape.coordinates, shape.ends).code()
}
