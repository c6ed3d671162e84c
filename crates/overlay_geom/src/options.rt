//! Options of the input and of the answer.

ghost use Rattle.std.specs.Prelude.{true, false};
ghost use Rattle.overlay_geom.specs.Options.{AreOptions};

use crate::number::UIntNumber;

/// The shape that a contour belongs to. The rules Difference, InverseDifference, Subject and Clip tell the two apart.
/// Union, Intersect and Xor have equal answers when the two are exchanged.
#[derive(Debug, Clone, Copy, PartialEq)]
pub enum ShapeType {
    /// The shape that is worked on.
    Subject,
    /// The shape that works on the subject.
    Clip,
}

/// The direction in which a contour runs round the area that it encloses.
#[derive(Debug, Clone, Copy, PartialEq)]
pub enum ContourDirection {
    /// With the enclosed area on the left.
    CounterClockwise,
    /// With the enclosed area on the right.
    Clockwise,
}

/// Options of how input points are taken and how output contours look. `U` is the unsigned type that measures areas.
#[derive(Debug, Clone, Copy)]
pub struct IntOverlayOptions<U> {
    /// Whether input points collinear with their two neighbours are kept; otherwise they are dropped.
    pub preserve_input_collinear: bool,
    /// The direction of outlines; holes run the other way.
    pub output_direction: ContourDirection,
    /// Whether output points collinear with their two neighbours are kept; otherwise they are dropped.
    pub preserve_output_collinear: bool,
    /// The smallest area of a contour that is kept; 0 keeps all contours.
    pub min_output_area: U,
    /// Whether each output contour visits a point at most once.
    pub ogc: bool,
}

impl<U: UIntNumber> Default for IntOverlayOptions<U> {
    ghost is_default = { AreOptions U.natural false false false };

    fn default() -> Self {
        IntOverlayOptions {
            preserve_input_collinear: false,
            output_direction: ContourDirection::CounterClockwise,
            preserve_output_collinear: false,
            min_output_area: U::zero(),
            ogc: false,
        }
    }
}

impl<U: UIntNumber> IntOverlayOptions<U> {
    /// Returns the default options, but keeps collinear points of input and output.
    pub fn keep_all_points() -> Self
        ensures { AreOptions U.natural true true false result }
    {
        IntOverlayOptions {
            preserve_input_collinear: true,
            ..IntOverlayOptions::keep_output_points()
        }
    }

    /// Returns the default options, but keeps collinear output points.
    pub fn keep_output_points() -> Self
        ensures { AreOptions U.natural false true false result }
    {
        IntOverlayOptions {
            preserve_output_collinear: true,
            ..IntOverlayOptions::default()
        }
    }

    /// Returns the default options, but no output contour visits a point twice.
    pub fn ogc() -> Self
        ensures { AreOptions U.natural false false true result }
    {
        IntOverlayOptions {
            ogc: true,
            ..IntOverlayOptions::default()
        }
    }
}
