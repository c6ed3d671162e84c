//! The kinds of predicates.

ghost use Rattle.std.specs.Prelude.{◌≡◌};
ghost use Rattle.overlay_relate.specs.Findings.{telling_test, is_told};

use crate::edge_test::EdgeTest;

/// How a subject and a clip may lie to each other.
#[derive(Clone, Copy, PartialEq, Eq)]
pub(crate) enum Predicate {
    /// Their closed regions have a common point.
    Intersect,
    /// Some point off the edges is filled by both.
    InteriorsIntersect,
    /// The first, and not the second.
    Touch,
    /// The first, and no edge has sides of both.
    PointIntersect,
    /// The subject lies within the clip.
    Within,
    /// The clip lies within the subject.
    Cover,
}

impl Predicate {
    /// Returns a test of edges that answers the predicate where some edge passes it.
    pub(crate) fn telling_test(self) -> EdgeTest
        ensures { result ≡ telling_test self }
    {
        match self {
            Predicate::Intersect | Predicate::PointIntersect => EdgeTest::BothShapes,
            Predicate::InteriorsIntersect | Predicate::Touch => EdgeTest::CommonSide,
            Predicate::Within => EdgeTest::SubjectOutside,
            Predicate::Cover => EdgeTest::ClipOutside,
        }
    }

    /// Returns whether the predicate holds where some edge passes that test.
    pub(crate) fn is_told(self) -> bool
        ensures { result ≡ is_told self }
    {
        match self {
            Predicate::Intersect | Predicate::InteriorsIntersect => true,
            Predicate::Touch | Predicate::PointIntersect => false,
            Predicate::Within | Predicate::Cover => false,
        }
    }
}
