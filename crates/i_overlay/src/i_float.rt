//! Points, vectors and numbers under the paths of the crate that they come from in Rust.

/// Whole numbers.
pub mod int {
    /// Points.
    pub mod point {
        pub use overlay_geom::point::IntPoint;
    }

    /// Vectors.
    pub mod vector {
        pub use overlay_geom::vector::IntVector;
    }

    /// Number types.
    pub mod number {
        /// Coordinates.
        pub mod int {
            pub use overlay_geom::number::IntNumber;
        }

        /// Numbers in which products of coordinates are measured.
        pub mod wide_int {
            pub use overlay_geom::number::WideIntNumber;
        }

        /// Unsigned numbers in which areas are measured.
        pub mod uint {
            pub use overlay_geom::number::UIntNumber;
        }
    }
}
