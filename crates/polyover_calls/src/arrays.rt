//! What C passes: arrays of contours.

ghost use Rattle.std.specs.Prelude.{◌≡◌};

use crate::given::Contours;

/// Contours of 64-bit coordinates: the points x y x y .., and the count of points up to the end of each contour.
#[repr(C)]
#[derive(Clone, Copy)]
pub struct Contours64<'a> {
    /// The coordinates, x before y.
    pub coordinates: &'a [i64],
    /// How many points there are up to the end of each contour.
    pub ends: &'a [usize],
}

/// The same of 32-bit coordinates.
#[repr(C)]
#[derive(Clone, Copy)]
pub struct Contours32<'a> {
    /// The coordinates, x before y.
    pub coordinates: &'a [i32],
    /// How many points there are up to the end of each contour.
    pub ends: &'a [usize],
}

impl<'a> Contours64<'a> {
    /// Returns the contours.
    pub fn given(&self) -> Contours<'a, i64>
        ensures coordinates { result.coordinates.now ≡ self.now.coordinates.now }
        ensures ends { result.ends.now ≡ self.now.ends.now }
    {
        Contours {
            coordinates: self.coordinates,
            ends: self.ends,
        }
    }
}

impl<'a> Contours32<'a> {
    /// Returns the contours.
    pub fn given(&self) -> Contours<'a, i32>
        ensures coordinates { result.coordinates.now ≡ self.now.coordinates.now }
        ensures ends { result.ends.now ≡ self.now.ends.now }
    {
        Contours {
            coordinates: self.coordinates,
            ends: self.ends,
        }
    }
}
