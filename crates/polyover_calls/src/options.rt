//! What C passes: options.

ghost use Rattle.std.specs.Prelude.{◌≡◌};
ghost use Rattle.polyover_calls.specs.Options.{options_32, options_64};

use crate::numbers::OptionNumbers;

/// Options at 64 bits, by their numbers.
#[repr(C)]
#[derive(Clone, Copy)]
pub struct Options64 {
    /// The direction of outlines: 0 for counter-clockwise, 1 for clockwise. Holes run the other way.
    pub direction: u32,
    /// Which points on one line with their two neighbours are kept: 1 of the answer, 2 given ones, 3 both, 0 none.
    pub keep: u32,
    /// 0 where no contour visits a point twice, 1 where it may.
    pub touching: u32,
    /// How edges are split where they meet: 0 by snap rounding, 1 in rounds.
    pub solver: u32,
    /// The smallest area of a contour that is kept, in units of 2^64; 0 in both keeps all.
    pub min_area_high: u64,
    /// What is left of that area.
    pub min_area_low: u64,
}

/// The same at 32 bits.
#[repr(C)]
#[derive(Clone, Copy)]
pub struct Options32 {
    /// The direction of outlines: 0 for counter-clockwise, 1 for clockwise. Holes run the other way.
    pub direction: u32,
    /// Which points on one line with their two neighbours are kept: 1 of the answer, 2 given ones, 3 both, 0 none.
    pub keep: u32,
    /// 0 where no contour visits a point twice, 1 where it may.
    pub touching: u32,
    /// How edges are split where they meet: 0 by snap rounding, 1 in rounds.
    pub solver: u32,
    /// The smallest area of a contour that is kept; 0 keeps all.
    pub min_area: u64,
}

impl Options64 {
    /// Returns the numbers of the options. The smallest area has two parts.
    pub fn numbers(&self) -> OptionNumbers<u128>
        ensures { result ≡ options_64 self.now }
    {
        OptionNumbers {
            direction: self.direction,
            keep: self.keep,
            touching: self.touching,
            solver: self.solver,
            min_area: (self.min_area_high as u128) * (1 << 64) + (self.min_area_low as u128),
        }
    }
}

impl Options32 {
    /// Returns the numbers of the options.
    pub fn numbers(&self) -> OptionNumbers<u64>
        ensures { result ≡ options_32 self.now }
    {
        OptionNumbers {
            direction: self.direction,
            keep: self.keep,
            touching: self.touching,
            solver: self.solver,
            min_area: self.min_area,
        }
    }
}
