//! The rule by which shapes are extracted from a shape and its strings.

/// The ways in which strings cut a shape.
#[derive(Debug, Clone, Copy, PartialEq, Eq)]
pub enum StringRule {
    /// It is cut along them.
    Slice,
}
