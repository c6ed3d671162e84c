//! Locations are the only ones that their contracts allow.

ghost use Rattle.overlay_located.specs.Laws.{OneLocation, OneLocationInPaths};

/// Two locations of a point in the shape of the same edges are equal. So are two in the shape of the same paths.
pub fn one_location()
    ensures contents { OneLocation }
    ensures paths { OneLocationInPaths }
{}
