//! What a builder holds is the only content that the contracts of its calls allow.

ghost use Rattle.overlay_builder.specs.Determined.{OneContent, ContentsAreShuffled, OneAdding};
ghost use Rattle.overlay_builder.specs.Determined.{ArrangedPathsAreRefusedByMemoryAlone};

/// Two contents to which paths lead have the same edges. They are equal where all points of the paths are taken.
pub fn one_content<E>()
    ensures shuffled { ContentsAreShuffled E }
    ensures whole { OneContent E }
{}

/// Two builders to which such paths were added are equal, and so are the answers, where memory is not refused.
pub fn one_adding()
    ensures { OneAdding }
{}

/// Paths that snap rounding arranges in one call are refused in another only where memory is. No path weighs too much,
/// and neither do their pieces.
pub fn memory_alone_refuses()
    ensures { ArrangedPathsAreRefusedByMemoryAlone }
{}
