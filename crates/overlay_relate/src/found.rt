//! What is found of the edges of an arrangement, from which each predicate is answered.

ghost use Rattle.std.specs.Prelude.{◌≡◌};
ghost use Rattle.overlay_relate.specs.Found.{answer_by, relations_by};

use crate::predicate::Predicate;
use crate::relations::Relations;
use overlay_geom::fill_rule::FillRule;

/// What was found of the edges of an arrangement, with the sides that the two shapes fill under a rule.
#[derive(Clone, Copy)]
pub(crate) struct Found {
    /// Which windings fill a shape.
    pub(crate) fill_rule: FillRule,
    /// Whether some edge has sides of both shapes, or their borders share an end.
    pub(crate) meet: bool,
    /// Whether some edge has sides of both shapes.
    pub(crate) has_both: bool,
    /// Whether both fill the same side of some edge.
    pub(crate) has_common_side: bool,
    /// Whether the subject fills a side of some edge.
    pub(crate) has_subject: bool,
    /// Whether it fills one that the clip does not fill.
    pub(crate) subject_pokes_out: bool,
    /// Whether the clip fills a side of some edge.
    pub(crate) has_clip: bool,
    /// Whether it fills one that the subject does not fill.
    pub(crate) clip_pokes_out: bool,
}

impl Found {
    /// Returns whether the predicate holds of these edges.
    pub(crate) fn answer(self, predicate: Predicate) -> bool
        ensures { result ≡ answer_by self predicate }
    {
        match predicate {
            Predicate::Intersect => self.meet,
            Predicate::InteriorsIntersect => self.has_common_side,
            Predicate::Touch => self.meet && !self.has_common_side,
            Predicate::PointIntersect => self.meet && !self.has_both,
            Predicate::Within => self.has_subject && !self.subject_pokes_out,
            Predicate::Cover => self.has_clip && !self.clip_pokes_out,
        }
    }

    /// Returns whether each relation holds of these edges.
    pub(crate) fn relations(self) -> Relations
        ensures { result ≡ relations_by self }
    {
        let intersects = self.answer(Predicate::Intersect);
        Relations {
            intersects,
            interiors_intersect: self.answer(Predicate::InteriorsIntersect),
            touches: self.answer(Predicate::Touch),
            point_intersects: self.answer(Predicate::PointIntersect),
            within: self.answer(Predicate::Within),
            disjoint: !intersects,
            covers: self.answer(Predicate::Cover),
        }
    }
}
