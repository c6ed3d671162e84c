//! The refusals.

pub use overlay_geom::error::OverlayError;
