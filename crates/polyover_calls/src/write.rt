//! Items written into an array of a caller.

ghost use Rattle.std.specs.Prelude.{◌≡◌, ◌≤◌, length};
ghost use Rattle.polyover_calls.specs.Arrays.{written_over};

/// Writes the items into the first places of the room, which has a place for each.
pub(crate) fn write_over<T: Copy>(room: &mut [T], items: &[T])
    requires { length items.now ≤ length room.old }
    ensures { room.new ≡ written_over items.now room.old }
{
    room[..items.len()].copy_from_slice(items);
}
