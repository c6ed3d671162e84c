//! Findings of queries, which a builder for predicates keeps.

ghost use Rattle.std.specs.Prelude.{◌≡◌};
ghost use Rattle.overlay_relate.specs.Findings.{finding_answer};

use crate::found::Found;
use crate::predicate::Predicate;
use overlay_geom::fill_rule::FillRule;

/// The answer of one predicate under a rule.
#[derive(Clone, Copy)]
pub(crate) struct Told {
    /// The predicate.
    pub(crate) predicate: Predicate,
    /// Which windings fill a shape.
    pub(crate) fill_rule: FillRule,
    /// Whether it holds.
    pub(crate) answer: bool,
}

/// A finding of a query about the edges of an arrangement.
#[derive(Clone, Copy)]
pub(crate) enum Finding {
    /// The answer of the predicate that was asked.
    One(Told),
    /// The answers of all predicates.
    All(Found),
}

impl Finding {
    /// Returns whether the predicate that was asked holds.
    pub(crate) fn answer(self, predicate: Predicate) -> bool
        ensures { result ≡ finding_answer self predicate }
    {
        match self {
            Finding::One(told) => told.answer,
            Finding::All(found) => found.answer(predicate),
        }
    }
}
