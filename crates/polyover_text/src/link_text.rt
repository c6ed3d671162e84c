//! The text of links between shapes.

ghost use Rattle.std.specs.Prelude.{◌≡◌, OnOk, ◌++◌, string_bytes};
ghost use Rattle.polyover_text.specs.Printed.{link_line};

use std::alloc::{AllocError, Allocator};
use std::fmt::Write;

/// Adds a line `link p c s`: shape s lies in the hole at place c among all contours, which is one of shape p.
/// If it is refused, a part of the line may stand there.
pub fn push_link<A: Allocator>(
    text: &mut String<A>,
    parent_shape: usize,
    parent_contour: usize,
    child_shape: usize,
) -> Result<(), AllocError>
    ensures { OnOk result (string_bytes text.new
        ≡ string_bytes text.old ++ link_line parent_shape parent_contour child_shape) }
{
    writeln!(text, "link {parent_shape} {parent_contour} {child_shape}")
}
