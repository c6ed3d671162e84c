//! Paths, shapes and resources, under the paths of the crate that they come from in Rust.

/// Contours and shapes whose points stand in one list.
pub mod flat {
    /// The lists.
    pub mod buffer {
        pub use overlay_geom::flat::contours::FlatContoursBuffer;
        pub use overlay_geom::flat::shapes::FlatShapesBuffer;
    }
}

/// Whole numbers.
pub mod int {
    /// Paths.
    pub mod path {
        pub use overlay_geom::path::{IntPath, PathRef};
    }

    /// Contours and shapes.
    pub mod shape {
        pub use overlay_geom::path::{IntContour, IntShape, IntShapes};
    }
}

/// Resources: values that have paths.
pub mod source {
    /// Whole numbers.
    pub mod int {
        /// Resources.
        pub mod resource {
            pub use overlay_geom::resource::IntShapeResource;
            pub use overlay_geom::resource::borrowed::{BorrowedContours, BorrowedShapes};
            pub use overlay_geom::resource::cursor::PathCursor;
        }
    }
}
