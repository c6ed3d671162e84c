//! How two resources lie to each other as they are given: predicates in one call.

ghost use Rattle.overlay_predicates.specs.ExactPaths.{AreBothInRange, TellsRelationOfTwo, TellsRelationsOfTwo};
ghost use Rattle.overlay_predicates.specs.ExactPaths.{PathsMeet, PathsTouch, PathsMeetInPoints, ArePathsApart};
ghost use Rattle.overlay_predicates.specs.ExactPaths.{ArePathsWithin, PathsCover};
ghost use Rattle.overlay_relate.specs.PathRelations.{PathInteriorsIntersect};

use crate::exact_predicates::ExactPredicates;
use overlay_exact::exact_int::ExactInt;
use overlay_geom::error::OverlayError;
use overlay_geom::resource::IntShapeResource;
use overlay_relate::relations::Relations;
use std::alloc::Allocator;

/// Predicates of two resources, each of its own type, under the fill rule EvenOdd. Nothing is rounded: each answer is
/// that of the paths as they are given. Each path is a closed contour. This resource is the subject, and `other` the
/// clip. The points of both are in the coordinate range.
///
/// Refusals are `Memory` and `TooManyEdges`; nothing of the caller's is changed.
pub trait IntRelateExact<I: ExactInt>: IntShapeResource<I> {
    /// Tells of each relation whether it holds.
    fn exact_relations<R1: IntShapeResource<I>, A: Allocator + Clone>(
        &self,
        alloc: A,
        other: &R1,
    ) -> Result<Relations, OverlayError>
        requires { AreBothInRange I.limit (Self.paths self.now) (R1.paths other.now) }
        ensures { TellsRelationsOfTwo (Self.paths self.now) (R1.paths other.now) result };

    /// Returns whether the two have a common point: one of the closures of both interiors.
    fn intersects_exact<R1: IntShapeResource<I>, A: Allocator + Clone>(
        &self,
        alloc: A,
        other: &R1,
    ) -> Result<bool, OverlayError>
        requires { AreBothInRange I.limit (Self.paths self.now) (R1.paths other.now) }
        ensures { TellsRelationOfTwo PathsMeet (Self.paths self.now) (R1.paths other.now) result };

    /// Returns whether both fill some point off the paths.
    fn interiors_intersect_exact<R1: IntShapeResource<I>, A: Allocator + Clone>(
        &self,
        alloc: A,
        other: &R1,
    ) -> Result<bool, OverlayError>
        requires { AreBothInRange I.limit (Self.paths self.now) (R1.paths other.now) }
        ensures { TellsRelationOfTwo PathInteriorsIntersect (Self.paths self.now) (R1.paths other.now) result };

    /// Returns whether the two have a common point, and their interiors have none.
    fn touches_exact<R1: IntShapeResource<I>, A: Allocator + Clone>(
        &self,
        alloc: A,
        other: &R1,
    ) -> Result<bool, OverlayError>
        requires { AreBothInRange I.limit (Self.paths self.now) (R1.paths other.now) }
        ensures { TellsRelationOfTwo PathsTouch (Self.paths self.now) (R1.paths other.now) result };

    /// Returns whether the two meet in single points alone.
    fn point_intersects_exact<R1: IntShapeResource<I>, A: Allocator + Clone>(
        &self,
        alloc: A,
        other: &R1,
    ) -> Result<bool, OverlayError>
        requires { AreBothInRange I.limit (Self.paths self.now) (R1.paths other.now) }
        ensures { TellsRelationOfTwo PathsMeetInPoints (Self.paths self.now) (R1.paths other.now) result };

    /// Returns whether this resource lies within the other.
    fn within_exact<R1: IntShapeResource<I>, A: Allocator + Clone>(
        &self,
        alloc: A,
        other: &R1,
    ) -> Result<bool, OverlayError>
        requires { AreBothInRange I.limit (Self.paths self.now) (R1.paths other.now) }
        ensures { TellsRelationOfTwo ArePathsWithin (Self.paths self.now) (R1.paths other.now) result };

    /// Returns whether the two have no common point.
    fn disjoint_exact<R1: IntShapeResource<I>, A: Allocator + Clone>(
        &self,
        alloc: A,
        other: &R1,
    ) -> Result<bool, OverlayError>
        requires { AreBothInRange I.limit (Self.paths self.now) (R1.paths other.now) }
        ensures { TellsRelationOfTwo ArePathsApart (Self.paths self.now) (R1.paths other.now) result };

    /// Returns whether the other resource lies within this resource.
    fn covers_exact<R1: IntShapeResource<I>, A: Allocator + Clone>(
        &self,
        alloc: A,
        other: &R1,
    ) -> Result<bool, OverlayError>
        requires { AreBothInRange I.limit (Self.paths self.now) (R1.paths other.now) }
        ensures { TellsRelationOfTwo PathsCover (Self.paths self.now) (R1.paths other.now) result };
}

impl<I: ExactInt, R0: IntShapeResource<I>> IntRelateExact<I> for R0 {
    fn exact_relations<R1: IntShapeResource<I>, A: Allocator + Clone>(
        &self,
        alloc: A,
        other: &R1,
    ) -> Result<Relations, OverlayError> {
        let predicates = ExactPredicates::from_subj_and_clip(alloc, self, other)?;
        predicates.relations()
    }

    fn intersects_exact<R1: IntShapeResource<I>, A: Allocator + Clone>(
        &self,
        alloc: A,
        other: &R1,
    ) -> Result<bool, OverlayError> {
        let predicates = ExactPredicates::from_subj_and_clip(alloc, self, other)?;
        predicates.intersects()
    }

    fn interiors_intersect_exact<R1: IntShapeResource<I>, A: Allocator + Clone>(
        &self,
        alloc: A,
        other: &R1,
    ) -> Result<bool, OverlayError> {
        let predicates = ExactPredicates::from_subj_and_clip(alloc, self, other)?;
        predicates.interiors_intersect()
    }

    fn touches_exact<R1: IntShapeResource<I>, A: Allocator + Clone>(
        &self,
        alloc: A,
        other: &R1,
    ) -> Result<bool, OverlayError> {
        let predicates = ExactPredicates::from_subj_and_clip(alloc, self, other)?;
        predicates.touches()
    }

    fn point_intersects_exact<R1: IntShapeResource<I>, A: Allocator + Clone>(
        &self,
        alloc: A,
        other: &R1,
    ) -> Result<bool, OverlayError> {
        let predicates = ExactPredicates::from_subj_and_clip(alloc, self, other)?;
        predicates.point_intersects()
    }

    fn within_exact<R1: IntShapeResource<I>, A: Allocator + Clone>(
        &self,
        alloc: A,
        other: &R1,
    ) -> Result<bool, OverlayError> {
        let predicates = ExactPredicates::from_subj_and_clip(alloc, self, other)?;
        predicates.within()
    }

    fn disjoint_exact<R1: IntShapeResource<I>, A: Allocator + Clone>(
        &self,
        alloc: A,
        other: &R1,
    ) -> Result<bool, OverlayError> {
        let predicates = ExactPredicates::from_subj_and_clip(alloc, self, other)?;
        predicates.disjoint()
    }

    fn covers_exact<R1: IntShapeResource<I>, A: Allocator + Clone>(
        &self,
        alloc: A,
        other: &R1,
    ) -> Result<bool, OverlayError> {
        let predicates = ExactPredicates::from_subj_and_clip(alloc, self, other)?;
        predicates.covers()
    }
}
