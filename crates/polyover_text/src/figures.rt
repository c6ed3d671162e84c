//! What the lines of an input give.

use crate::contour::HeldContour;
use overlay_geom::point::IntPoint;
use std::alloc::Allocator;

/// What the lines of an input give, each list in the order of its lines.
#[derive(Drop)]
pub struct Figures<A: Allocator> {
    /// The contours.
    pub contours: Vec<NumberedContour<A>, A>,
    /// The open paths.
    pub lines: Vec<Vec<IntPoint<i64>, A>, A>,
    /// The points that are asked about.
    pub points: Vec<IntPoint<i64>, A>,
}

/// A contour, and the number of its line.
#[derive(Drop)]
pub struct NumberedContour<A: Allocator> {
    /// The number of the line, counted from 1.
    pub line: usize,
    /// The contour.
    pub contour: HeldContour<A>,
}

impl<A: Allocator + Copy> Figures<A> {
    ghost use Rattle.std.specs.Prelude.{◌≡◌};
    ghost use Rattle.polyover_text.specs.Grammar.{no_figures};
    ghost use Rattle.polyover_text.specs.Statements.{figures_at};

    /// No figures.
    pub fn new(alloc: A) -> Self
        ensures { figures_at result ≡ no_figures }
    {
        Figures {
            contours: Vec::new(alloc),
            lines: Vec::new(alloc),
            points: Vec::new(alloc),
        }
    }
}
