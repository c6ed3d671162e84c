//! How a subject and a clip lie to each other.

/// Whether each relation of a subject and a clip holds.
#[derive(Debug, Clone, Copy, PartialEq, Eq)]
pub struct Relations {
    /// They have a common point.
    pub intersects: bool,
    /// Some point off the edges is filled by both.
    pub interiors_intersect: bool,
    /// They have a common point, and no point off the edges is filled by both.
    pub touches: bool,
    /// They meet in single points alone.
    pub point_intersects: bool,
    /// The subject lies within the clip.
    pub within: bool,
    /// They have no common point.
    pub disjoint: bool,
    /// The clip lies within the subject.
    pub covers: bool,
}
