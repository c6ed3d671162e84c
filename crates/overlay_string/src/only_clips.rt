//! The paths of a clip are the only ones that their contract allows.

ghost use Rattle.overlay_string.specs.OneClip.{OneClip};

/// Two lists of paths that a clip gives of the same pieces are equal: the paths, their order, and where each begins.
/// The pieces that a clip keeps are told by the edges of the arrangement.
pub fn one_clip()
    ensures { OneClip }
{}
