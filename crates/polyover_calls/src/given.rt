//! Contours as arrays have them.

ghost use Rattle.std.specs.Prelude.{◌≡◌, All, IfOk, IfErr};
ghost use Rattle.overlay_geom.specs.Flat.{paths_in};
ghost use Rattle.overlay_geom.specs.Points.{AllInRange};
ghost use Rattle.polyover_calls.specs.Given.{AreGiven, AreUnread, contours_of, paths_of};

use crate::fault::Fault;
use crate::read::tested_contours;
use crate::test::test_contours;
use overlay_geom::flat::contours::FlatContoursBuffer;
use overlay_geom::number::IntNumber;
use std::alloc::Global;

/// Contours as arrays have them.
#[derive(Clone, Copy)]
pub struct Contours<'a, I> {
    /// The coordinates, x before y.
    pub coordinates: &'a [I],
    /// How many points there are up to the end of each contour.
    pub ends: &'a [usize],
}

/// Two lists of contours that are read.
#[derive(Drop)]
pub struct BothRead<I> {
    /// The first list.
    pub first: FlatContoursBuffer<I, Global>,
    /// The second one.
    pub second: FlatContoursBuffer<I, Global>,
}

/// Reads the contours of both. All are tested first, those of the first list before the other ones; `Memory` comes only
/// where none has a fault.
pub fn read_both<I: IntNumber>(
    alloc: Global,
    first: &Contours<I>,
    second: &Contours<I>,
) -> Result<BothRead<I>, Fault>
    ensures first_given { IfOk result (λ _. AreGiven I.whole I.limit
        (contours_of first.now.coordinates.now first.now.ends.now)) }
    ensures second_given { IfOk result (λ _. AreGiven I.whole I.limit
        (contours_of second.now.coordinates.now second.now.ends.now)) }
    ensures first { IfOk result (λ r. paths_in I.whole r.first.points.items r.first.ranges.items
        ≡ paths_of I.whole (contours_of first.now.coordinates.now first.now.ends.now)) }
    ensures second { IfOk result (λ r. paths_in I.whole r.second.points.items r.second.ranges.items
        ≡ paths_of I.whole (contours_of second.now.coordinates.now second.now.ends.now)) }
    ensures first_in_range { IfOk result (λ r. All (AllInRange I.limit)
        (paths_in I.whole r.first.points.items r.first.ranges.items)) }
    ensures second_in_range { IfOk result (λ r. All (AllInRange I.limit)
        (paths_in I.whole r.second.points.items r.second.ranges.items)) }
    ensures err { IfErr result (AreUnread I.whole I.limit
        (contours_of first.now.coordinates.now first.now.ends.now)
        (contours_of second.now.coordinates.now second.now.ends.now)) }
{
    test_contours(first.coordinates, first.ends)?;
    test_contours(second.coordinates, second.ends)?;
    let first = tested_contours(alloc, first.coordinates, first.ends)?;
    let second = tested_contours(alloc, second.coordinates, second.ends)?;
    Ok(BothRead { first, second })
}
