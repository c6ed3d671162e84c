//! The builder for edges that carry data.

pub use overlay_vector::edge_overlay::EdgeOverlay;
pub use overlay_vector::edges::Edges;
pub use overlay_vector::input_edge::InputEdge;
