//! Edges with the sides that the shapes fill.

/// An edge with its filled sides and its data, and contours and shapes of such edges.
pub mod edge {
    pub use overlay_order::vector::{
        CLIP_LEFT, CLIP_RIGHT, DataVectorEdge, SUBJ_LEFT, SUBJ_RIGHT, SideFill,
    };
    pub use overlay_vector::path::{
        DataVectorPath, DataVectorShape, ToPath, VectorPath, VectorShape,
    };
    pub use overlay_vector::side_fill::Reverse;
}
