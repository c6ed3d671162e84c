//! What locations of points in shapes as they are given tell.

ghost use Rattle.overlay_located.specs.Laws.{ContentsLocateOfPaths};

/// Where a point lies in a builder's shape, it lies in the shape of the paths that were added.
pub fn contents_locate_of_paths()
    ensures { ContentsLocateOfPaths }
{}
