//! Data that edges carry through an overlay.

pub use overlay_order::data::{EdgeDataMerge, OverlayEdgeData};
