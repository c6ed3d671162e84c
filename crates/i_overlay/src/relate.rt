//! How two resources lie to each other: predicates in one call, and the builder that answers them, one or all.

ghost use Rattle.overlay_geom.specs.declared.solver.Solver.TheVariants.{Rounds};
ghost use Rattle.overlay_plane.specs.Predicates.{Intersects, InteriorsIntersect, Touches, PointIntersects};
ghost use Rattle.overlay_plane.specs.Predicates.{IsWithin, IsDisjoint};
ghost use Rattle.i_overlay.specs.Relations.{AreBothInRange, TellsOfTwo};

use crate::solver::Solver;
use overlay_geom::error::OverlayError;
use overlay_geom::fill_rule::FillRule;
use overlay_geom::integer::OverlayInt;
use overlay_geom::resource::IntShapeResource;
pub use overlay_relate::predicate_overlay::PredicateOverlay;
pub use overlay_relate::relations::Relations;
use std::alloc::Allocator;

/// Predicates of two resources, each of its own type, under the fill rule EvenOdd. Each path is a closed
/// contour, and points on one line are dropped. This resource is the subject, and `other` the clip. The
/// points of both are in the coordinate range. Each answer is that of `PredicateOverlay` on a new builder:
/// of the edges after splitting. A call without a solver takes `Solver::ABSOLUTE`.
///
/// Refusals are `Memory`, `NotSettled` (never with `Solver::SNAPPED`) and `TooManyEdges`; nothing of the caller's is
/// changed.
pub trait IntRelate<I: OverlayInt>: IntShapeResource<I> {
    /// Returns whether the two have a common point.
    fn intersects<R1: IntShapeResource<I>, A: Allocator + Clone>(
        &self,
        alloc: A,
        other: &R1,
    ) -> Result<bool, OverlayError>
        requires { AreBothInRange I.limit (Self.paths self.now) (R1.paths other.now) }
        ensures { TellsOfTwo Rounds Intersects (Self.paths self.now) (R1.paths other.now) result };

    /// As `intersects`, with edges split by `solver`.
    fn intersects_with_solver<R1: IntShapeResource<I>, A: Allocator + Clone>(
        &self,
        alloc: A,
        other: &R1,
        solver: Solver,
    ) -> Result<bool, OverlayError>
        requires { AreBothInRange I.limit (Self.paths self.now) (R1.paths other.now) }
        ensures { TellsOfTwo solver Intersects (Self.paths self.now) (R1.paths other.now) result };

    /// Returns whether both fill some point off the edges.
    fn interiors_intersect<R1: IntShapeResource<I>, A: Allocator + Clone>(
        &self,
        alloc: A,
        other: &R1,
    ) -> Result<bool, OverlayError>
        requires { AreBothInRange I.limit (Self.paths self.now) (R1.paths other.now) }
        ensures { TellsOfTwo Rounds InteriorsIntersect (Self.paths self.now) (R1.paths other.now) result };

    /// As `interiors_intersect`, with edges split by `solver`.
    fn interiors_intersect_with_solver<R1: IntShapeResource<I>, A: Allocator + Clone>(
        &self,
        alloc: A,
        other: &R1,
        solver: Solver,
    ) -> Result<bool, OverlayError>
        requires { AreBothInRange I.limit (Self.paths self.now) (R1.paths other.now) }
        ensures { TellsOfTwo solver InteriorsIntersect (Self.paths self.now) (R1.paths other.now) result };

    /// Returns whether the two have a common point, and their interiors have none.
    fn touches<R1: IntShapeResource<I>, A: Allocator + Clone>(
        &self,
        alloc: A,
        other: &R1,
    ) -> Result<bool, OverlayError>
        requires { AreBothInRange I.limit (Self.paths self.now) (R1.paths other.now) }
        ensures { TellsOfTwo Rounds Touches (Self.paths self.now) (R1.paths other.now) result };

    /// As `touches`, with edges split by `solver`.
    fn touches_with_solver<R1: IntShapeResource<I>, A: Allocator + Clone>(
        &self,
        alloc: A,
        other: &R1,
        solver: Solver,
    ) -> Result<bool, OverlayError>
        requires { AreBothInRange I.limit (Self.paths self.now) (R1.paths other.now) }
        ensures { TellsOfTwo solver Touches (Self.paths self.now) (R1.paths other.now) result };

    /// Returns whether the two meet in single points alone.
    fn point_intersects<R1: IntShapeResource<I>, A: Allocator + Clone>(
        &self,
        alloc: A,
        other: &R1,
    ) -> Result<bool, OverlayError>
        requires { AreBothInRange I.limit (Self.paths self.now) (R1.paths other.now) }
        ensures { TellsOfTwo Rounds PointIntersects (Self.paths self.now) (R1.paths other.now) result };

    /// As `point_intersects`, with edges split by `solver`.
    fn point_intersects_with_solver<R1: IntShapeResource<I>, A: Allocator + Clone>(
        &self,
        alloc: A,
        other: &R1,
        solver: Solver,
    ) -> Result<bool, OverlayError>
        requires { AreBothInRange I.limit (Self.paths self.now) (R1.paths other.now) }
        ensures { TellsOfTwo solver PointIntersects (Self.paths self.now) (R1.paths other.now) result };

    /// Returns whether this resource lies within the other.
    fn within<R1: IntShapeResource<I>, A: Allocator + Clone>(
        &self,
        alloc: A,
        other: &R1,
    ) -> Result<bool, OverlayError>
        requires { AreBothInRange I.limit (Self.paths self.now) (R1.paths other.now) }
        ensures { TellsOfTwo Rounds IsWithin (Self.paths self.now) (R1.paths other.now) result };

    /// As `within`, with edges split by `solver`.
    fn within_with_solver<R1: IntShapeResource<I>, A: Allocator + Clone>(
        &self,
        alloc: A,
        other: &R1,
        solver: Solver,
    ) -> Result<bool, OverlayError>
        requires { AreBothInRange I.limit (Self.paths self.now) (R1.paths other.now) }
        ensures { TellsOfTwo solver IsWithin (Self.paths self.now) (R1.paths other.now) result };

    /// Returns whether the two have no common point.
    fn disjoint<R1: IntShapeResource<I>, A: Allocator + Clone>(
        &self,
        alloc: A,
        other: &R1,
    ) -> Result<bool, OverlayError>
        requires { AreBothInRange I.limit (Self.paths self.now) (R1.paths other.now) }
        ensures { TellsOfTwo Rounds IsDisjoint (Self.paths self.now) (R1.paths other.now) result };

    /// As `disjoint`, with edges split by `solver`.
    fn disjoint_with_solver<R1: IntShapeResource<I>, A: Allocator + Clone>(
        &self,
        alloc: A,
        other: &R1,
        solver: Solver,
    ) -> Result<bool, OverlayError>
        requires { AreBothInRange I.limit (Self.paths self.now) (R1.paths other.now) }
        ensures { TellsOfTwo solver IsDisjoint (Self.paths self.now) (R1.paths other.now) result };

    /// Returns whether the other resource lies within this resource: `within` of the two exchanged.
    fn covers<R1: IntShapeResource<I>, A: Allocator + Clone>(
        &self,
        alloc: A,
        other: &R1,
    ) -> Result<bool, OverlayError>
        requires { AreBothInRange I.limit (R1.paths other.now) (Self.paths self.now) }
        ensures { TellsOfTwo Rounds IsWithin (R1.paths other.now) (Self.paths self.now) result };

    /// As `covers`, with edges split by `solver`.
    fn covers_with_solver<R1: IntShapeResource<I>, A: Allocator + Clone>(
        &self,
        alloc: A,
        other: &R1,
        solver: Solver,
    ) -> Result<bool, OverlayError>
        requires { AreBothInRange I.limit (R1.paths other.now) (Self.paths self.now) }
        ensures { TellsOfTwo solver IsWithin (R1.paths other.now) (Self.paths self.now) result };
}

impl<I: OverlayInt, R0: IntShapeResource<I>> IntRelate<I> for R0 {
    fn intersects<R1: IntShapeResource<I>, A: Allocator + Clone>(
        &self,
        alloc: A,
        other: &R1,
    ) -> Result<bool, OverlayError> {
        self.intersects_with_solver(alloc, other, Solver::ABSOLUTE)
    }

    fn intersects_with_solver<R1: IntShapeResource<I>, A: Allocator + Clone>(
        &self,
        alloc: A,
        other: &R1,
        solver: Solver,
    ) -> Result<bool, OverlayError> {
        let rule = FillRule::EvenOdd;
        let mut overlay = PredicateOverlay::from_subj_and_clip_custom(
            alloc, self, other, rule, solver,
        )?;
        overlay.intersects()
    }

    fn interiors_intersect<R1: IntShapeResource<I>, A: Allocator + Clone>(
        &self,
        alloc: A,
        other: &R1,
    ) -> Result<bool, OverlayError> {
        self.interiors_intersect_with_solver(alloc, other, Solver::ABSOLUTE)
    }

    fn interiors_intersect_with_solver<R1: IntShapeResource<I>, A: Allocator + Clone>(
        &self,
        alloc: A,
        other: &R1,
        solver: Solver,
    ) -> Result<bool, OverlayError> {
        let rule = FillRule::EvenOdd;
        let mut overlay = PredicateOverlay::from_subj_and_clip_custom(
            alloc, self, other, rule, solver,
        )?;
        overlay.interiors_intersect()
    }

    fn touches<R1: IntShapeResource<I>, A: Allocator + Clone>(
        &self,
        alloc: A,
        other: &R1,
    ) -> Result<bool, OverlayError> {
        self.touches_with_solver(alloc, other, Solver::ABSOLUTE)
    }

    fn touches_with_solver<R1: IntShapeResource<I>, A: Allocator + Clone>(
        &self,
        alloc: A,
        other: &R1,
        solver: Solver,
    ) -> Result<bool, OverlayError> {
        let rule = FillRule::EvenOdd;
        let mut overlay = PredicateOverlay::from_subj_and_clip_custom(
            alloc, self, other, rule, solver,
        )?;
        overlay.touches()
    }

    fn point_intersects<R1: IntShapeResource<I>, A: Allocator + Clone>(
        &self,
        alloc: A,
        other: &R1,
    ) -> Result<bool, OverlayError> {
        self.point_intersects_with_solver(alloc, other, Solver::ABSOLUTE)
    }

    fn point_intersects_with_solver<R1: IntShapeResource<I>, A: Allocator + Clone>(
        &self,
        alloc: A,
        other: &R1,
        solver: Solver,
    ) -> Result<bool, OverlayError> {
        let rule = FillRule::EvenOdd;
        let mut overlay = PredicateOverlay::from_subj_and_clip_custom(
            alloc, self, other, rule, solver,
        )?;
        overlay.point_intersects()
    }

    fn within<R1: IntShapeResource<I>, A: Allocator + Clone>(
        &self,
        alloc: A,
        other: &R1,
    ) -> Result<bool, OverlayError> {
        self.within_with_solver(alloc, other, Solver::ABSOLUTE)
    }

    fn within_with_solver<R1: IntShapeResource<I>, A: Allocator + Clone>(
        &self,
        alloc: A,
        other: &R1,
        solver: Solver,
    ) -> Result<bool, OverlayError> {
        let rule = FillRule::EvenOdd;
        let mut overlay = PredicateOverlay::from_subj_and_clip_custom(
            alloc, self, other, rule, solver,
        )?;
        overlay.within()
    }

    fn disjoint<R1: IntShapeResource<I>, A: Allocator + Clone>(
        &self,
        alloc: A,
        other: &R1,
    ) -> Result<bool, OverlayError> {
        self.disjoint_with_solver(alloc, other, Solver::ABSOLUTE)
    }

    fn disjoint_with_solver<R1: IntShapeResource<I>, A: Allocator + Clone>(
        &self,
        alloc: A,
        other: &R1,
        solver: Solver,
    ) -> Result<bool, OverlayError> {
        let meets = self.intersects_with_solver(alloc, other, solver)?;
        Ok(!meets)
    }

    fn covers<R1: IntShapeResource<I>, A: Allocator + Clone>(
        &self,
        alloc: A,
        other: &R1,
    ) -> Result<bool, OverlayError> {
        self.covers_with_solver(alloc, other, Solver::ABSOLUTE)
    }

    fn covers_with_solver<R1: IntShapeResource<I>, A: Allocator + Clone>(
        &self,
        alloc: A,
        other: &R1,
        solver: Solver,
    ) -> Result<bool, OverlayError> {
        let rule = FillRule::EvenOdd;
        let mut exchanged = PredicateOverlay::from_subj_and_clip_custom(
            alloc, other, self, rule, solver,
        )?;
        exchanged.within()
    }
}
