//! Marks of the pieces that paths have taken.

ghost use Rattle.std.specs.Prelude.{◌≡◌, ◌<◌, true, length, slice_index_or};

/// Returns whether the piece at a place is taken.
pub(crate) fn is_taken(taken: &[bool], place: usize) -> bool
    requires { place < length taken.now }
    ensures { result ≡ slice_index_or taken.now place true }
{
    taken[place]
}
