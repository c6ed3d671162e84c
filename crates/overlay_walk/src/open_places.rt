//! Marks of the steps that walks have taken.

ghost use Rattle.std.specs.Prelude.{◌≡◌, ◌<◌, length};
ghost use Rattle.overlay_walk.specs.Places.{is_open};

/// Returns whether no walk has taken the step at a place.
pub fn is_open(taken: &[bool], place: usize) -> bool
    requires { place < length taken.now }
    ensures { result ≡ is_open taken.now place }
{
    !taken[place]
}
