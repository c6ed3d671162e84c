//! The coordinate types, and the tests that points are in their range and that a contour is resolved.

pub use overlay_geom::integer::OverlayInt;
pub use overlay_geom::point::in_range;
pub use overlay_geom::resolved::is_resolved;
pub use overlay_relate::resolved::is_resolved_in;
