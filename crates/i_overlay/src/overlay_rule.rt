//! Overlay rules: the points that the result takes.

pub use overlay_geom::overlay_rule::OverlayRule;
