//! What exact answers of a builder tell of the paths that were added to it.

ghost use Rattle.overlay_predicates.specs.ExactPaths.{ContentsTellOfPaths};

/// The answers of a builder that began empty and holds just these paths, thinned or not, are those of the paths.
pub fn contents_tell_of_paths()
    ensures { ContentsTellOfPaths }
{}
