//! The room that extractions of contours use again.

pub use overlay_walk::buffer::BooleanExtractionBuffer;
