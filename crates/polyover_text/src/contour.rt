//! A contour of the input.

use overlay_geom::options::ShapeType;
use overlay_geom::point::IntPoint;
use std::alloc::Allocator;

/// A closed list of points, and the shape that it belongs to.
#[derive(Drop)]
pub struct HeldContour<A: Allocator> {
    /// The shape.
    pub shape_type: ShapeType,
    /// The points; the first follows the last.
    pub points: Vec<IntPoint<i64>, A>,
}
