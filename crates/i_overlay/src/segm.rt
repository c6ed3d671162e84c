//! How often paths pass an edge.

/// Counts of a subject and a clip.
pub mod boolean {
    pub use overlay_order::count::ShapeCountBoolean;
}

/// Counts of a shape, and the directions of strings.
pub mod string {
    pub use overlay_order::string_count::ShapeCountString;
}
