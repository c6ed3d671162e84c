//! Predicates of the subject and the clip of a builder, as they were added.

ghost use Rattle.overlay_plane.specs.Predicates.{InteriorsIntersect, IsWithin, Covers};
ghost use Rattle.overlay_predicates.specs.ExactQueries.{TellsRelation, TellsRelations, TellsUnlessEarly};
ghost use Rattle.overlay_predicates.specs.ExactQueries.{ContentsMeet, ContentsTouch, ContentsMeetInPoints};
ghost use Rattle.overlay_predicates.specs.ExactQueries.{AreContentsApart};

use crate::exact_predicates::ExactPredicates;
use crate::merged::merged_copy;
use crate::merged_relations::merged_relations;
use overlay_exact::exact_int::ExactInt;
use overlay_geom::error::OverlayError;
use overlay_given::first::some_first_passes;
use overlay_given::sides::SideTest;
use overlay_relate::relations::Relations;
use std::alloc::Allocator;

impl<I: ExactInt, A: Allocator + Clone> ExactPredicates<I, A> {
    /// Tells whether the closures of the interiors have a common point. The only refusal is `Memory`.
    pub fn intersects(&self) -> Result<bool, OverlayError>
        ensures { TellsRelation ContentsMeet self.now result }
    {
        let told = self.relations_unless(SideTest::BothShapes)?;
        match told {
            Some(relations) => Ok(relations.intersects),
            None => Ok(true),
        }
    }

    /// Tells whether both shapes fill some point off the edges. The only refusal is `Memory`.
    pub fn interiors_intersect(&self) -> Result<bool, OverlayError>
        ensures { TellsRelation InteriorsIntersect self.now result }
    {
        let told = self.relations_unless(SideTest::CommonSide)?;
        match told {
            Some(relations) => Ok(relations.interiors_intersect),
            None => Ok(true),
        }
    }

    /// Tells whether the shapes intersect, but their interiors do not. The only refusal is `Memory`.
    pub fn touches(&self) -> Result<bool, OverlayError>
        ensures { TellsRelation ContentsTouch self.now result }
    {
        let told = self.relations_unless(SideTest::CommonSide)?;
        match told {
            Some(relations) => Ok(relations.touches),
            None => Ok(false),
        }
    }

    /// Tells whether the shapes intersect, in single points alone. The only refusal is `Memory`.
    pub fn point_intersects(&self) -> Result<bool, OverlayError>
        ensures { TellsRelation ContentsMeetInPoints self.now result }
    {
        let told = self.relations_unless(SideTest::BothShapes)?;
        match told {
            Some(relations) => Ok(relations.point_intersects),
            None => Ok(false),
        }
    }

    /// Tells whether the subject lies within the clip: it fills some point off the edges, and the clip fills each such
    /// point. The only refusal is `Memory`.
    pub fn within(&self) -> Result<bool, OverlayError>
        ensures { TellsRelation IsWithin self.now result }
    {
        let told = self.relations_unless(SideTest::SubjectOutside)?;
        match told {
            Some(relations) => Ok(relations.within),
            None => Ok(false),
        }
    }

    /// Tells whether the shapes have no common point. The only refusal is `Memory`.
    pub fn disjoint(&self) -> Result<bool, OverlayError>
        ensures { TellsRelation AreContentsApart self.now result }
    {
        let told = self.relations_unless(SideTest::BothShapes)?;
        match told {
            Some(relations) => Ok(relations.disjoint),
            None => Ok(false),
        }
    }

    /// Tells whether the subject covers the clip: the clip fills some point off the edges, and the subject fills each
    /// such point. The only refusal is `Memory`.
    pub fn covers(&self) -> Result<bool, OverlayError>
        ensures { TellsRelation Covers self.now result }
    {
        let told = self.relations_unless(SideTest::ClipOutside)?;
        match told {
            Some(relations) => Ok(relations.covers),
            None => Ok(false),
        }
    }

    /// Tells of each relation whether it holds of the shapes as they were added. The only refusal is `Memory`.
    pub fn relations(&self) -> Result<Relations, OverlayError>
        ensures { TellsRelations self.now result }
    {
        let merged = merged_copy(self.core.content())?;
        merged_relations(&merged, self.fill_rule)
    }

    // Returns the relations, or None where the first edges of the shapes have a piece whose sides pass the test.
    fn relations_unless(&self, test: SideTest) -> Result<Option<Relations>, OverlayError>
        ensures { TellsUnlessEarly test self.now result }
    {
        let content = self.core.content();
        let merged = merged_copy(content)?;
        let alloc = content.allocator().clone()?;
        let passes = some_first_passes(alloc, merged.edges(), self.fill_rule, test)?;
        if passes {
            return Ok(None);
        }
        Ok(Some(merged_relations(&merged, self.fill_rule)?))
    }
}
