//! Fill rules: which windings are filled.

pub use overlay_geom::fill_rule::FillRule;
