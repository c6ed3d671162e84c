//! The text of shapes whose points stand in one list.

ghost use Rattle.std.specs.Prelude.{◌≡◌, IfOk, OnOk, ◌++◌, string_bytes};
ghost use Rattle.overlay_geom.specs.Flat.{part_in, paths_in, shapes_in};
ghost use Rattle.polyover_text.specs.Printed.{lines_of_shapes, shape_lines};

use crate::shape_text::push_contour;
use overlay_geom::flat::shapes::FlatShapesBuffer;
use overlay_geom::point::IntPoint;
use std::alloc::{AllocError, Allocator};
use std::fmt::Write;
use std::ops::Range;

/// The lines that [`shapes_text`](crate::shape_text::shapes_text) gives of the same shapes in lists of their own.
pub fn flat_shapes_text<A: Allocator>(
    alloc: A,
    shapes: &FlatShapesBuffer<i64, A>,
) -> Result<String<A>, AllocError>
    ensures { IfOk result (λ text. string_bytes text ≡ lines_of_shapes (shapes_in (λ z. z)
        shapes.now.points.items shapes.now.contour_ranges.items shapes.now.shape_ranges.items)) }
{
    let mut text = String::new(alloc);
    for range in &shapes.shape_ranges {
        let contours = part_of(&shapes.contour_ranges, range);
        push_flat_shape(&mut text, &shapes.points, contours)?;
    }
    Ok(text)
}

// Adds the lines of a shape, each contour of which is a range of the points.
fn push_flat_shape<A: Allocator>(
    text: &mut String<A>,
    points: &[IntPoint<i64>],
    contours: &[Range<usize>],
) -> Result<(), AllocError>
    ensures { OnOk result
        (string_bytes text.new ≡ string_bytes text.old ++ shape_lines (paths_in (λ z. z) points.now contours.now)) }
{
    writeln!(text, "shape")?;
    for range in contours {
        push_contour(text, part_of(points, range))?;
    }
    Ok(())
}

// The items at the places of the range; none if it is not inside the list.
fn part_of<'a, T>(items: &'a [T], range: &Range<usize>) -> &'a [T]
    ensures { result.now ≡ part_in items.now range.now }
{
    items.get(range.start..range.end).unwrap_or(&[])
}
