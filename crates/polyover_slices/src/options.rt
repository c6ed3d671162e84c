//! What C passes: how slices look, and how edges are split.

ghost use Rattle.std.specs.Prelude.{◌≡◌};
ghost use Rattle.polyover_slices.specs.Options.{slice_options_32, slice_options_64};

use polyover_calls::numbers::OptionNumbers;

/// Options of slices at 64 bits, by their numbers.
#[repr(C)]
#[derive(Clone, Copy)]
pub struct SliceOptions64 {
    /// The direction of outlines: 0 for counter-clockwise, 1 for clockwise. Holes run the other way.
    pub direction: u32,
    /// How edges are split where they meet: 0 by snap rounding, 1 in rounds.
    pub solver: u32,
    /// The smallest area of a contour that is kept, in units of 2^64; 0 in both keeps all.
    pub min_area_high: u64,
    /// What is left of that area.
    pub min_area_low: u64,
}

/// The same at 32 bits.
#[repr(C)]
#[derive(Clone, Copy)]
pub struct SliceOptions32 {
    /// The direction of outlines: 0 for counter-clockwise, 1 for clockwise. Holes run the other way.
    pub direction: u32,
    /// How edges are split where they meet: 0 by snap rounding, 1 in rounds.
    pub solver: u32,
    /// The smallest area of a contour that is kept; 0 keeps all.
    pub min_area: u64,
}

impl SliceOptions64 {
    /// Returns the numbers of the options. The smallest area has two parts.
    pub fn numbers(&self) -> OptionNumbers<u128>
        ensures { result ≡ slice_options_64 self.now }
    {
        OptionNumbers {
            direction: self.direction,
            keep: 0,
            touching: 0,
            solver: self.solver,
            min_area: (self.min_area_high as u128) * (1 << 64) + (self.min_area_low as u128),
        }
    }
}

impl SliceOptions32 {
    /// Returns the numbers of the options.
    pub fn numbers(&self) -> OptionNumbers<u64>
        ensures { result ≡ slice_options_32 self.now }
    {
        OptionNumbers {
            direction: self.direction,
            keep: 0,
            touching: 0,
            solver: self.solver,
            min_area: self.min_area,
        }
    }
}
