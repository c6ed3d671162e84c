//! Strings, which are lines and paths over a shape, under the paths that they have in Rust.

/// Strings clipped by a shape.
pub mod clip {
    pub use overlay_string::clip::IntClip;
    pub use overlay_string::clip_rule::ClipRule;
}

/// Views of a shape and the strings over it.
pub mod graph {
    pub use overlay_string::string_graph::StringGraph;
}

/// Lines.
pub mod line {
    pub use overlay_geom::path::IntLine;
}

/// The builder for strings.
pub mod overlay {
    pub use overlay_string::string_overlay::StringOverlay;
}

/// Shapes sliced along strings.
pub mod slice {
    pub use overlay_string::slice::IntSlice;
}

/// What strings do to a shape.
pub mod rule {
    pub use overlay_string::string_rule::StringRule;
}
