//! Lines that are borrowed from a list, as a resource.

ghost use Rattle.overlay_string.specs.StringPaths.{paths_of_lines};

use overlay_geom::number::IntNumber;
use overlay_geom::path::IntLine;
use overlay_geom::point::IntPoint;
use overlay_geom::resource::IntShapeResource;

/// Lines that are borrowed: each is a path of two points.
#[derive(Drop)]
pub struct BorrowedLines<'a, I: IntNumber> {
    /// The lines, in order.
    pub lines: &'a [IntLine<I>],
}

impl<'a, I: IntNumber> IntShapeResource<I> for BorrowedLines<'a, I> {
    ghost paths = { λ b. paths_of_lines I.whole b.lines.now };

    /// Returns how many lines there are.
    fn path_count(&self) -> usize {
        self.lines.len()
    }

    /// Returns the two points of the line with this number.
    fn path(&self, index: usize) -> &[IntPoint<I>] {
        &self.lines[index]
    }
}
