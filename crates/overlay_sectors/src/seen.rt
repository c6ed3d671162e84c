//! Fillings of sectors found so far.

ghost use Rattle.std.specs.Prelude.{◌≡◌, ◌||◌, not, false};
ghost use Rattle.overlay_sectors.specs.Seen.{location_of};

use overlay_relate::location::PointLocation;

/// Whether a filled sector was found, and whether one that is not filled was.
#[derive(Clone, Copy)]
pub struct Seen {
    /// A filled sector was found.
    pub filled: bool,
    /// A sector that is not filled was found.
    pub empty: bool,
}

impl Seen {
    /// Returns that no sector was found.
    pub fn nothing() -> Seen
        ensures { result ≡ record { filled = false; empty = false } }
    {
        Seen {
            filled: false,
            empty: false,
        }
    }

    /// Returns what is found with one more sector.
    pub fn with(self, is_filled: bool) -> Seen
        ensures filled { result.filled ≡ (is_filled || self.filled) }
        ensures empty { result.empty ≡ (not is_filled || self.empty) }
    {
        Seen {
            filled: is_filled || self.filled,
            empty: !is_filled || self.empty,
        }
    }

    /// Returns where a point lies with these sectors round it.
    pub fn location(self) -> PointLocation
        ensures { result ≡ location_of self }
    {
        match (self.empty, self.filled) {
            (false, _) => PointLocation::Inside,
            (true, true) => PointLocation::Boundary,
            (true, false) => PointLocation::Outside,
        }
    }
}
