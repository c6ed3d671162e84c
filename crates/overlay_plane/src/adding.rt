//! The windings of an added contour.

ghost use Rattle.overlay_plane.specs.Adding.{AddingAddsWindings};

/// An added contour adds its winding to those of its side, thinned or not. It adds nothing to the other side.
pub fn adding_adds_windings()
    ensures { AddingAddsWindings }
{}
