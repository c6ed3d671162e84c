//! What locations of points are told by.

ghost use Rattle.overlay_sectors.specs.Laws.{SectorsTellLocations};

/// The sectors round a point tell where it lies.
pub fn sectors_tell_locations()
    ensures { SectorsTellLocations }
{}
