//! The text of shapes.

ghost use Rattle.std.specs.Prelude.{◌≡◌, IfOk, OnOk, ◌++◌, string_bytes};
ghost use Rattle.overlay_geom.specs.Points.{plain_points, plain_point};
ghost use Rattle.overlay_geom.specs.Paths.{plain_shapes, paths_of_shape};
ghost use Rattle.polyover_text.specs.Printed.{lines_of_shapes, shape_lines, contour_line, point_text};

use overlay_geom::path::{IntContour, IntShape};
use overlay_geom::point::IntPoint;
use std::alloc::{AllocError, Allocator};
use std::fmt::Write;

/// For each shape a line `shape`, and then a line for each of its contours: `x y x y ..`.
pub fn shapes_text<A: Allocator>(
    alloc: A,
    shapes: &[IntShape<i64, A>],
) -> Result<String<A>, AllocError>
    ensures { IfOk result
        (λ text. string_bytes text ≡ lines_of_shapes (plain_shapes (λ z. z) shapes.now)) }
{
    let mut text = String::new(alloc);
    for shape in shapes {
        push_shape(&mut text, shape)?;
    }
    Ok(text)
}

fn push_shape<A: Allocator>(
    text: &mut String<A>,
    shape: &[IntContour<i64, A>],
) -> Result<(), AllocError>
    ensures { OnOk result
        (string_bytes text.new ≡ string_bytes text.old ++ shape_lines (paths_of_shape (λ z. z) shape.now)) }
{
    writeln!(text, "shape")?;
    for contour in shape {
        push_contour(text, contour)?;
    }
    Ok(())
}

/// Adds the line of a contour, or of a path: `x y x y ..`.
pub(crate) fn push_contour<A: Allocator>(
    text: &mut String<A>,
    contour: &[IntPoint<i64>],
) -> Result<(), AllocError>
    ensures { OnOk result
        (string_bytes text.new ≡ string_bytes text.old ++ contour_line (plain_points (λ z. z) contour.now)) }
{
    if let Some((first, rest)) = contour.split_first() {
        push_point(text, first)?;
        for point in rest {
            text.push(' ')?;
            push_point(text, point)?;
        }
    }
    text.push('\n')
}

fn push_point<A: Allocator>(text: &mut String<A>, point: &IntPoint<i64>) -> Result<(), AllocError>
    ensures { OnOk result
        (string_bytes text.new ≡ string_bytes text.old ++ point_text (plain_point (λ z. z) point.now)) }
{
    write!(text, "{} {}", point.x, point.y)
}
