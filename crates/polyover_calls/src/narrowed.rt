//! Coordinates of arrays at 32 bits, where all of them fit: then calls compute at 32 bits, which takes less time and
//! memory, and keep the same contracts.

ghost use Rattle.std.specs.Prelude.{◌≡◌, map, All, IfSome, IfOk};
ghost use Rattle.overlay_geom.specs.Numbers.{Within};
ghost use Rattle.polyover_calls.specs.Narrowed.{AreNarrowed, greatest_of_32_bits};

use crate::given::Contours;
use crate::test::test_contours;
use overlay_geom::integer::OverlayInt;
use std::alloc::{AllocError, Global};

// The greatest coordinate in range at 32 bits, 2^30 - 1: `greatest_of_32_bits`.
const GREATEST_OF_32_BITS: i64 = 1073741823;

/// A coordinate in arrays of C.
pub(crate) trait ArrayInt: OverlayInt {
    /// Returns the coordinates at 32 bits, where this type is wider, all of them fit, and there is memory for them.
    fn narrowed(alloc: Global, coordinates: &[Self]) -> Option<Vec<i32, Global>>
        ensures { IfSome result (λ v. AreNarrowed Self.whole Self.limit coordinates.now v.items) };

    /// Returns coordinates at 32 bits in this type.
    fn widened(
        alloc: Global,
        coordinates: Vec<i32, Global>,
    ) -> Result<Vec<Self, Global>, AllocError>
        ensures { IfOk result (λ v. map Self.whole v.items ≡ coordinates.items) };
}

impl ArrayInt for i32 {
    fn narrowed(_alloc: Global, _coordinates: &[i32]) -> Option<Vec<i32, Global>> {
        None
    }

    fn widened(
        _alloc: Global,
        coordinates: Vec<i32, Global>,
    ) -> Result<Vec<i32, Global>, AllocError> {
        Ok(coordinates)
    }
}

impl ArrayInt for i64 {
    fn narrowed(alloc: Global, coordinates: &[i64]) -> Option<Vec<i32, Global>> {
        at_32_bits(alloc, coordinates).unwrap_or(None)
    }

    fn widened(
        alloc: Global,
        coordinates: Vec<i32, Global>,
    ) -> Result<Vec<i64, Global>, AllocError> {
        at_64_bits(alloc, &coordinates)
    }
}

// The coordinates at 32 bits, or `None` where one of them does not fit.
fn at_32_bits(alloc: Global, coordinates: &[i64]) -> Result<Option<Vec<i32, Global>>, AllocError>
    ensures same { IfOk result (λ o. IfSome o (λ v. v.items ≡ coordinates.now)) }
    ensures narrow { IfOk result (λ o. IfSome o (λ v. All (Within greatest_of_32_bits) v.items)) }
{
    let mut narrowed = Vec::with_capacity(alloc, coordinates.len())?;
    for coordinate in coordinates {
        if *coordinate < -GREATEST_OF_32_BITS || *coordinate > GREATEST_OF_32_BITS {
            return Ok(None);
        }
        narrowed.push_reserved(*coordinate as i32);
    }
    Ok(Some(narrowed))
}

// The coordinates at 64 bits.
fn at_64_bits(alloc: Global, coordinates: &[i32]) -> Result<Vec<i64, Global>, AllocError>
    ensures { IfOk result (λ v. v.items ≡ coordinates.now) }
{
    let mut widened = Vec::with_capacity(alloc, coordinates.len())?;
    for coordinate in coordinates {
        widened.push_reserved(i64::from(*coordinate));
    }
    Ok(widened)
}

/// Coordinates of two lists of contours at 32 bits.
#[derive(Drop)]
pub(crate) struct BothNarrowed {
    pub(crate) first: Vec<i32, Global>,
    pub(crate) second: Vec<i32, Global>,
}

/// Returns the coordinates of contours without a fault at 32 bits, where their type is wider, all of them fit, and
/// there is memory for them.
pub(crate) fn narrowed_one<I: ArrayInt>(
    alloc: Global,
    given: &Contours<I>,
) -> Option<Vec<i32, Global>>
    ensures { IfSome result (λ v. AreNarrowed I.whole I.limit given.now.coordinates.now v.items) }
{
    test_contours(given.coordinates, given.ends).ok()?;
    I::narrowed(alloc, given.coordinates)
}

/// Returns the same of two lists of contours. Both are tested before memory is taken.
pub(crate) fn narrowed_both<I: ArrayInt>(
    alloc: Global,
    first: &Contours<I>,
    second: &Contours<I>,
) -> Option<BothNarrowed>
    ensures first { IfSome result (λ b. AreNarrowed I.whole I.limit first.now.coordinates.now b.first.items) }
    ensures second { IfSome result (λ b. AreNarrowed I.whole I.limit second.now.coordinates.now b.second.items) }
{
    test_contours(second.coordinates, second.ends).ok()?;
    let first = narrowed_one(alloc, first)?;
    let second = I::narrowed(alloc, second.coordinates)?;
    Some(BothNarrowed { first, second })
}
