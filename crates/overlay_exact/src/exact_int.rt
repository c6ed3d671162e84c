//! Coordinate types whose cross products are compared as fractions.

ghost use Rattle.std.specs.Prelude.{◌≡◌, pos, ◌*ℤ◌, ◌<ℤ◌, ◌≤ℤ◌};
ghost use Rattle.std.specs.Ordering.{int_cmp};

use crate::fraction::compare_fractions;
use overlay_geom::number::{IntNumber, WideIntNumber};
use std::cmp::Ordering;

/// A coordinate whose fractions of cross products can be compared: `i16`, `i32` or `i64`.
pub trait ExactInt: IntNumber {
    /// Compares the fractions `n / d` and `m / c`. No numerator is negative, and each denominator is positive. The
    /// answer is exact, though products of two such numbers may fit no number type.
    fn compare_fractions(n: Self::Wide, d: Self::Wide, m: Self::Wide, c: Self::Wide) -> Ordering
        requires n { pos 0 ≤ℤ Self.Wide.whole n }
        requires d { pos 0 <ℤ Self.Wide.whole d }
        requires m { pos 0 ≤ℤ Self.Wide.whole m }
        requires c { pos 0 <ℤ Self.Wide.whole c }
        ensures { result ≡ int_cmp (Self.Wide.whole n *ℤ Self.Wide.whole c) (Self.Wide.whole m *ℤ Self.Wide.whole d) };
}

impl ExactInt for i16 {
    fn compare_fractions(n: i32, d: i32, m: i32, c: i32) -> Ordering {
        (i64::from(n) * i64::from(c)).cmp(&(i64::from(m) * i64::from(d)))
    }
}

impl ExactInt for i32 {
    fn compare_fractions(n: i64, d: i64, m: i64, c: i64) -> Ordering {
        (i128::from(n) * i128::from(c)).cmp(&(i128::from(m) * i128::from(d)))
    }
}

impl ExactInt for i64 {
    fn compare_fractions(n: i128, d: i128, m: i128, c: i128) -> Ordering {
        compare_fractions(n as u128, d as u128, m as u128, c as u128)
    }
}
