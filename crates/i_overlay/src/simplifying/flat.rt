//! A contour in a flat buffer, and what is left of it.

ghost use Rattle.std.specs.Prelude.{◌≡◌, [], length};
ghost use Rattle.overlay_geom.specs.Flat.{part_in, first_range, paths_in};
ghost use Rattle.overlay_geom.specs.Points.{plain_points};
ghost use Rattle.i_overlay.specs.Outcome.{contours_left};

use crate::simplifying::outcome::Outcome;
use overlay_geom::flat::contours::FlatContoursBuffer;
use overlay_geom::number::IntNumber;
use std::alloc::Allocator;

/// Leaves in the buffer the outcome of its one contour: as it stands, with its points reversed where they stand,
/// or no contour and no point. No memory is taken.
pub(crate) fn leave_contour<I: IntNumber, B: Allocator>(
    buffer: &mut FlatContoursBuffer<I, B>,
    outcome: Outcome,
)
    requires { length buffer.old.ranges.items ≡ 1 }
    ensures left { paths_in I.whole buffer.new.points.items buffer.new.ranges.items
        ≡ contours_left outcome (plain_points I.whole
        (part_in buffer.old.points.items (first_range buffer.old.ranges.items))) }
    ensures no_points { buffer.new.ranges.items ≡ [] → buffer.new.points.items ≡ [] }
    ensures same_points { outcome ≡ Outcome.AsGiven → buffer.new.points.items ≡ buffer.old.points.items }
    ensures same_ranges { outcome ≡ Outcome.AsGiven → buffer.new.ranges.items ≡ buffer.old.ranges.items }
{
    match outcome {
        Outcome::AsGiven => {}
        Outcome::Reversed => buffer.as_first_contour_mut().reverse(),
        Outcome::NotSimple | Outcome::Empty => {
            buffer.points.clear();
            buffer.ranges.clear();
        }
    }
}
