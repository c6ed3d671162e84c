//! The coordinate types `i16`, `i32` and `i64`.

ghost use Rattle.std.proofs.Common.{lit≤};
ghost use Rattle.overlay_geom.specs.Numbers.{greatest_of_64_bits};

use crate::number::IntNumber;
use crate::number::part_way::nearest_on_way;
use std::cmp::Ordering;

// The greatest 64-bit coordinate in range, 2^62 - 1: `greatest_of_64_bits`.
const GREATEST_OF_64_BITS: i64 = 4611686018427387903;

impl IntNumber for i16 {
    type Wide = i32;

    type WideUInt = u32;

    ghost whole = { λ z. z };

    ghost limit = { 16383 };

    ghost same = { λ a b e. e };

    ghost small = { record { size_bound = lit≤ tt; align_bound = lit≤ tt } };

    fn is_in_range(self) -> bool {
        -16383 <= self && self <= 16383
    }

    fn compare(self, other: i16) -> Ordering {
        self.cmp(&other)
    }

    fn distance(self, other: i16) -> u64 {
        u64::from(self.abs_diff(other))
    }

    fn plus(self, other: i16) -> i16 {
        self + other
    }

    fn minus(self, other: i16) -> i16 {
        self - other
    }

    fn cross(ax: i16, ay: i16, bx: i16, by: i16) -> i32 {
        i32::from(ax) * i32::from(by) - i32::from(ay) * i32::from(bx)
    }

    fn compare_doubled(cross: i32, x: i16, y: i16) -> Ordering {
        let sum = i32::from(x) + i32::from(y);
        match cross.cmp(&(sum / 2)) {
            Ordering::Equal => 0.cmp(&(sum % 2)),
            other => other,
        }
    }

    fn halved_area(double_area: i32) -> u32 {
        double_area.unsigned_abs() / 2
    }

    fn part_way(self, to: i16, t: i32, d: i32) -> i16 {
        let (from, to) = (i64::from(self), i64::from(to));
        nearest_on_way(from, to, i128::from(t), i128::from(d)) as i16
    }
}

impl IntNumber for i32 {
    type Wide = i64;

    type WideUInt = u64;

    ghost whole = { λ z. z };

    ghost limit = { 1073741823 };

    ghost same = { λ a b e. e };

    ghost small = { record { size_bound = lit≤ tt; align_bound = lit≤ tt } };

    fn is_in_range(self) -> bool {
        -1073741823 <= self && self <= 1073741823
    }

    fn compare(self, other: i32) -> Ordering {
        self.cmp(&other)
    }

    fn distance(self, other: i32) -> u64 {
        u64::from(self.abs_diff(other))
    }

    fn plus(self, other: i32) -> i32 {
        self + other
    }

    fn minus(self, other: i32) -> i32 {
        self - other
    }

    fn cross(ax: i32, ay: i32, bx: i32, by: i32) -> i64 {
        i64::from(ax) * i64::from(by) - i64::from(ay) * i64::from(bx)
    }

    fn compare_doubled(cross: i64, x: i32, y: i32) -> Ordering {
        let sum = i64::from(x) + i64::from(y);
        match cross.cmp(&(sum / 2)) {
            Ordering::Equal => 0.cmp(&(sum % 2)),
            other => other,
        }
    }

    fn halved_area(double_area: i64) -> u64 {
        double_area.unsigned_abs() / 2
    }

    fn part_way(self, to: i32, t: i64, d: i64) -> i32 {
        let (from, to) = (i64::from(self), i64::from(to));
        nearest_on_way(from, to, i128::from(t), i128::from(d)) as i32
    }
}

impl IntNumber for i64 {
    type Wide = i128;

    type WideUInt = u128;

    ghost whole = { λ z. z };

    ghost limit = { greatest_of_64_bits };

    ghost same = { λ a b e. e };

    ghost small = { record { size_bound = lit≤ tt; align_bound = lit≤ tt } };

    fn is_in_range(self) -> bool {
        -GREATEST_OF_64_BITS <= self && self <= GREATEST_OF_64_BITS
    }

    fn compare(self, other: i64) -> Ordering {
        self.cmp(&other)
    }

    fn distance(self, other: i64) -> u64 {
        self.abs_diff(other)
    }

    fn plus(self, other: i64) -> i64 {
        self + other
    }

    fn minus(self, other: i64) -> i64 {
        self - other
    }

    fn cross(ax: i64, ay: i64, bx: i64, by: i64) -> i128 {
        i128::from(ax) * i128::from(by) - i128::from(ay) * i128::from(bx)
    }

    fn compare_doubled(cross: i128, x: i64, y: i64) -> Ordering {
        let sum = i128::from(x) + i128::from(y);
        match cross.cmp(&(sum / 2)) {
            Ordering::Equal => 0.cmp(&(sum % 2)),
            other => other,
        }
    }

    fn halved_area(double_area: i128) -> u128 {
        double_area.unsigned_abs() / 2
    }

    fn part_way(self, to: i64, t: i128, d: i128) -> i64 {
        nearest_on_way(self, to, t, d)
    }
}
