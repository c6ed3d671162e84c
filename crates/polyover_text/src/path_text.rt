//! The text of paths.

ghost use Rattle.std.specs.Prelude.{◌≡◌, IfOk, string_bytes};
ghost use Rattle.overlay_geom.specs.Paths.{paths_of_shape};
ghost use Rattle.polyover_text.specs.Printed.{lines_of_paths};

use crate::shape_text::push_contour;
use overlay_geom::path::IntPath;
use std::alloc::{AllocError, Allocator};

/// A line for each path: `x y x y ..`.
pub fn paths_text<A: Allocator>(
    alloc: A,
    paths: &[IntPath<i64, A>],
) -> Result<String<A>, AllocError>
    ensures { IfOk result
        (λ text. string_bytes text ≡ lines_of_paths (paths_of_shape (λ z. z) paths.now)) }
{
    let mut text = String::new(alloc);
    for path in paths {
        push_contour(&mut text, path)?;
    }
    Ok(text)
}
