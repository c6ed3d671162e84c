//! Shapes in one list, and links from holes to the shapes in them.

pub use overlay_extract::child_link::ChildLink;
pub use overlay_extract::hierarchy::FlatShapeHierarchy;
