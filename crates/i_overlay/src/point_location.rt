//! Where points lie: inside contours and shapes, on their edges, or outside; and shapes that are asked again and again.

pub use overlay_relate::containment::IntPointContainment;
pub use overlay_relate::location::PointLocation;
pub use overlay_relate::prepared::PreparedShape;
