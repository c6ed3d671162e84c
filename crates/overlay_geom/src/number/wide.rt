//! The types that hold cross products.

ghost use Rattle.std.specs.Int.{w32, w64, w128};

use crate::number::WideIntNumber;
use std::cmp::Ordering;

impl WideIntNumber for i32 {
    ghost whole = { λ z. z };

    ghost limit = { 2147483647 };

    ghost width = { w32 };

    fn zero() -> i32 {
        0
    }

    fn wrapping_add(self, other: i32) -> i32 {
        i32::wrapping_add(self, other)
    }

    fn compare(self, other: i32) -> Ordering {
        self.cmp(&other)
    }

    fn sign(self) -> Ordering {
        self.cmp(&0)
    }

    fn negate(self) -> i32 {
        -self
    }
}

impl WideIntNumber for i64 {
    ghost whole = { λ z. z };

    ghost limit = { 9223372036854775807 };

    ghost width = { w64 };

    fn zero() -> i64 {
        0
    }

    fn wrapping_add(self, other: i64) -> i64 {
        i64::wrapping_add(self, other)
    }

    fn compare(self, other: i64) -> Ordering {
        self.cmp(&other)
    }

    fn sign(self) -> Ordering {
        self.cmp(&0)
    }

    fn negate(self) -> i64 {
        -self
    }
}

impl WideIntNumber for i128 {
    ghost whole = { λ z. z };

    ghost limit = { 170141183460469231731687303715884105727 };

    ghost width = { w128 };

    fn zero() -> i128 {
        0
    }

    fn wrapping_add(self, other: i128) -> i128 {
        i128::wrapping_add(self, other)
    }

    fn compare(self, other: i128) -> Ordering {
        self.cmp(&other)
    }

    fn sign(self) -> Ordering {
        self.cmp(&0)
    }

    fn negate(self) -> i128 {
        -self
    }
}
