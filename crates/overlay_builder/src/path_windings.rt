//! What a builder that began empty winds round.

ghost use Rattle.overlay_builder.specs.PathWindings.{ContentsWindAsPaths, FarFromPathsIsFar};

/// What a builder holds that began empty winds round each point as the closed paths that were added, thinned or not.
pub fn contents_wind_as_paths()
    ensures { ContentsWindAsPaths }
{}

/// A point more than k/2 away from these paths, in x or in y, is as far from what it holds.
pub fn far_from_paths_is_far()
    ensures { FarFromPathsIsFar }
{}
