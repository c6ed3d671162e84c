//! The unsigned types that measure areas.

use crate::number::UIntNumber;

impl UIntNumber for u32 {
    ghost natural = { λ n. n };

    fn zero() -> u32 {
        0
    }

    fn is_at_least(self, other: u32) -> bool {
        other <= self
    }
}

impl UIntNumber for u64 {
    ghost natural = { λ n. n };

    fn zero() -> u64 {
        0
    }

    fn is_at_least(self, other: u64) -> bool {
        other <= self
    }
}

impl UIntNumber for u128 {
    ghost natural = { λ n. n };

    fn zero() -> u128 {
        0
    }

    fn is_at_least(self, other: u128) -> bool {
        other <= self
    }
}
