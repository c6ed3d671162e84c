//! Number types of coordinates, and the wider types that hold their products.

ghost use Rattle.std.specs.Prelude.{◌≡◌, ◌↔◌, IsTrue, ℕ, ◌*◌, ◌/◌, nat_abs, nat_le};
ghost use Rattle.std.specs.Prelude.{ℤ, pos, neg_ℤ, ◌+ℤ◌, ◌-ℤ◌, ◌*ℤ◌, ◌<ℤ◌, ◌≤ℤ◌};
ghost use Rattle.std.specs.Int.{Width, int_wrap};
ghost use Rattle.std.specs.Ordering.{int_cmp};
ghost use Rattle.overlay_geom.specs.Numbers.{Within};
ghost use Rattle.overlay_geom.specs.Rounding.{nearest};
ghost use Rattle.overlay_geom.specs.Small.{IsSmall};

mod coordinate;
mod part_way;
mod unsigned;
mod wide;

use std::cmp::Ordering;

/// An unsigned number as wide as a product of two coordinates: `u32`, `u64` or `u128`. It measures areas, in squared
/// units of the coordinates.
pub trait UIntNumber: Copy {
    // The natural number that the value stands for.
    ghost natural: { Self → ℕ };

    /// Returns the number 0.
    fn zero() -> Self
        ensures { natural result ≡ 0 };

    /// Returns whether the number is at least `other`.
    fn is_at_least(self, other: Self) -> bool
        ensures { result ≡ nat_le (natural other) (natural self) };
}

/// A signed number twice as wide as a coordinate: `i32`, `i64` or `i128`. It holds cross products, in squared units of
/// the coordinates.
pub trait WideIntNumber: Copy {
    // The whole number that the value stands for.
    ghost whole: { Self → ℤ };

    // Largest distance from 0 of a number that can be negated: 2^(2B-1) - 1.
    ghost limit: { ℕ };

    // Number of bits of the type, 2B. Sums wrap to it.
    ghost width: { Width };

    /// Returns the number 0.
    fn zero() -> Self
        ensures { whole result ≡ pos 0 };

    /// Returns the sum, wrapped where it does not fit the type.
    fn wrapping_add(self, other: Self) -> Self
        ensures { whole result ≡ int_wrap width (whole self +ℤ whole other) };

    /// Compares the number with `other`.
    fn compare(self, other: Self) -> Ordering
        ensures { result ≡ int_cmp (whole self) (whole other) };

    /// Compares the number with 0: `Less` for a negative number.
    fn sign(self) -> Ordering
        ensures { result ≡ int_cmp (whole self) (pos 0) };

    /// Returns the number with the opposite sign. The number is not the least of its type.
    fn negate(self) -> Self
        requires { Within limit (whole self) }
        ensures { whole result ≡ neg_ℤ (whole self) };
}

/// A coordinate: `i16`, `i32` or `i64`. With B bits, the coordinate range is
/// `|c| <= 2^(B-2) - 1`, that is 16383, 1073741823 or 4611686018427387903.
/// So the difference of two coordinates in range fits the type, and a cross product of two such
/// differences fits the wide type.
pub trait IntNumber: Copy {
    /// The signed type twice as wide, which holds cross products.
    type Wide: WideIntNumber;

    /// The unsigned type twice as wide, which measures areas.
    type WideUInt: UIntNumber;

    // The whole number that the value stands for.
    ghost whole: { Self → ℤ };

    // Largest distance from 0 of a coordinate in range.
    ghost limit: { ℕ };

    /// Returns whether the coordinate is in the coordinate range.
    fn is_in_range(self) -> bool
        ensures { IsTrue result ↔ Within limit (whole self) };

    /// Compares the coordinate with `other`, in range or not.
    fn compare(self, other: Self) -> Ordering
        ensures { result ≡ int_cmp (whole self) (whole other) };

    /// Returns the distance of the coordinate from `other`, in range or not.
    fn distance(self, other: Self) -> u64
        ensures { result ≡ nat_abs (whole self -ℤ whole other) };

    /// Returns the sum of two coordinates in range.
    fn plus(self, other: Self) -> Self
        requires left { Within limit (whole self) }
        requires right { Within limit (whole other) }
        ensures { whole result ≡ whole self +ℤ whole other };

    /// Returns the difference of two coordinates in range.
    fn minus(self, other: Self) -> Self
        requires left { Within limit (whole self) }
        requires right { Within limit (whole other) }
        ensures { whole result ≡ whole self -ℤ whole other };

    /// Returns the cross product `ax * by - ay * bx` of the vectors (ax, ay) and (bx, by). Each vector is a difference
    /// of two points in range. The product is exact and can be negated.
    fn cross(ax: Self, ay: Self, bx: Self, by: Self) -> Self::Wide
        requires ax { Within (2 * limit) (whole ax) }
        requires ay { Within (2 * limit) (whole ay) }
        requires bx { Within (2 * limit) (whole bx) }
        requires by { Within (2 * limit) (whole by) }
        ensures value { Self.Wide.whole result ≡ whole ax *ℤ whole by -ℤ whole ay *ℤ whole bx }
        ensures fits { Within Self.Wide.limit (Self.Wide.whole result) };

    /// Compares twice a cross product with the sum of two differences of coordinates in range.
    fn compare_doubled(cross: Self::Wide, x: Self, y: Self) -> Ordering
        requires x { Within (2 * limit) (whole x) }
        requires y { Within (2 * limit) (whole y) }
        ensures { result ≡ int_cmp (pos 2 *ℤ Self.Wide.whole cross) (whole x +ℤ whole y) };

    /// Returns half of the absolute value, rounded down. For a contour's double area this is its area, in squared
    /// units.
    fn halved_area(double_area: Self::Wide) -> Self::WideUInt
        ensures { Self.WideUInt.natural result ≡ nat_abs (Self.Wide.whole double_area) / 2 };

    /// Returns the coordinate nearest to the point `t / d` of the way from `self` to `to`. Of two equally near
    /// coordinates it returns the greater. Both ends are in range, and `0 <= t <= d`, `0 < d`.
    fn part_way(self, to: Self, t: Self::Wide, d: Self::Wide) -> Self
        requires from { Within limit (whole self) }
        requires to { Within limit (whole to) }
        requires begun { pos 0 ≤ℤ Self.Wide.whole t }
        requires part { Self.Wide.whole t ≤ℤ Self.Wide.whole d }
        requires divides { pos 0 <ℤ Self.Wide.whole d }
        requires fits { Within Self.Wide.limit (Self.Wide.whole d) }
        ensures { whole result
            ≡ nearest (whole self *ℤ Self.Wide.whole d +ℤ (whole to -ℤ whole self) *ℤ Self.Wide.whole t)
            (Self.Wide.whole d) };

    // Two coordinates that stand for the same number are equal.
    ghost same: { (a b : Self) → whole a ≡ whole b → a ≡ b };

    // A coordinate takes at most 8 bytes, so an array of two points fits in memory.
    ghost small: { IsSmall Self.row };
}
