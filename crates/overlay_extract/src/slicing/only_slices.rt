//! Slices are the only ones that their contract allows.

ghost use Rattle.overlay_extract.specs.OneSlicing.{OneSlicing};

/// Two results of slicing that are asked for alike, over the edges of one arrangement, are equal. So are the loops,
/// their order and starts, and the shapes in which they stand.
pub fn one_slicing()
    ensures { OneSlicing }
{}
