//! The rule by which a clip keeps parts of strings.

/// Which parts of strings a clip keeps. A part of a string lies inside the shape where the shape fills both of its
/// sides, and outside where it fills none. It lies on the boundary where it fills one.
#[derive(Debug, Clone, Copy)]
pub struct ClipRule {
    /// Whether the parts outside of the shape are kept, in place of those inside.
    pub invert: bool,
    /// Whether the parts on the boundary are kept too.
    pub boundary_included: bool,
}
