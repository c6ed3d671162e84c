//! Simplification of a resource, in one call.

ghost use Rattle.std.specs.Prelude.{All, IfOk, IfErr};
ghost use Rattle.overlay_geom.specs.declared.options.ShapeType.TheVariants.{Subject};
ghost use Rattle.overlay_geom.specs.Paths.{plain_shapes};
ghost use Rattle.overlay_geom.specs.Points.{AllInRange};
ghost use Rattle.overlay_geom.specs.declared.solver.Solver.TheVariants.{Rounds};
ghost use Rattle.overlay_builder.specs.GivenPaths.{paths_for};
ghost use Rattle.overlay_extract.specs.Results.{asked};
ghost use Rattle.i_overlay.specs.Alone.{MayRefuseAlone};
ghost use Rattle.i_overlay.specs.Simplified.{IsSimplifiedAlone};

use crate::overlay::{IntOverlayOptions, Overlay};
use crate::solver::Solver;
use overlay_geom::error::OverlayError;
use overlay_geom::fill_rule::FillRule;
use overlay_geom::integer::OverlayInt;
use overlay_geom::overlay_rule::OverlayRule;
use overlay_geom::path::IntShapes;
use overlay_geom::resource::IntShapeResource;
use std::alloc::Allocator;

/// Simplification of a resource. Each path is a closed contour, and the points are in the coordinate range. Each answer
/// is that of `Overlay::simplify_source` on a new builder. A call without a solver takes `Solver::ABSOLUTE`.
///
/// Refusals are `Memory`, `NotSettled` (never with `Solver::SNAPPED`) and `TooManyEdges`; nothing of the caller's is
/// changed.
pub trait Simplify<I: OverlayInt>: IntShapeResource<I> {
    /// The shapes that the resource is simplified to, with these options.
    fn simplify<A: Allocator + Clone>(
        &self,
        alloc: A,
        fill_rule: FillRule,
        options: IntOverlayOptions<I::WideUInt>,
    ) -> Result<IntShapes<I, A>, OverlayError>
        requires { All (AllInRange I.limit) (Self.paths self.now) }
        ensures result { IfOk result (λ v. IsSimplifiedAlone Rounds
            (asked I.Wide.width I.WideUInt.natural fill_rule OverlayRule.Subject options)
            options.preserve_input_collinear (Self.paths self.now) (plain_shapes I.whole v.items)) }
        ensures err { IfErr result (MayRefuseAlone options.preserve_input_collinear Rounds
            (paths_for Subject (Self.paths self.now))) };

    /// As `simplify`, with edges split by `solver`.
    fn simplify_with_solver<A: Allocator + Clone>(
        &self,
        alloc: A,
        fill_rule: FillRule,
        options: IntOverlayOptions<I::WideUInt>,
        solver: Solver,
    ) -> Result<IntShapes<I, A>, OverlayError>
        requires { All (AllInRange I.limit) (Self.paths self.now) }
        ensures result { IfOk result (λ v. IsSimplifiedAlone solver
            (asked I.Wide.width I.WideUInt.natural fill_rule OverlayRule.Subject options)
            options.preserve_input_collinear (Self.paths self.now) (plain_shapes I.whole v.items)) }
        ensures err { IfErr result (MayRefuseAlone options.preserve_input_collinear solver
            (paths_for Subject (Self.paths self.now))) };
}

impl<I: OverlayInt, R0: IntShapeResource<I>> Simplify<I> for R0 {
    fn simplify<A: Allocator + Clone>(
        &self,
        alloc: A,
        fill_rule: FillRule,
        options: IntOverlayOptions<I::WideUInt>,
    ) -> Result<IntShapes<I, A>, OverlayError>
        requires { All (AllInRange I.limit) (R0.paths self.now) }
        ensures result { IfOk result (λ v. IsSimplifiedAlone Rounds
            (asked I.Wide.width I.WideUInt.natural fill_rule OverlayRule.Subject options)
            options.preserve_input_collinear (R0.paths self.now) (plain_shapes I.whole v.items)) }
        ensures err { IfErr result (MayRefuseAlone options.preserve_input_collinear Rounds
            (paths_for Subject (R0.paths self.now))) }
    {
        self.simplify_with_solver(alloc, fill_rule, options, Solver::ABSOLUTE)
    }

    fn simplify_with_solver<A: Allocator + Clone>(
        &self,
        alloc: A,
        fill_rule: FillRule,
        options: IntOverlayOptions<I::WideUInt>,
        solver: Solver,
    ) -> Result<IntShapes<I, A>, OverlayError>
        requires { All (AllInRange I.limit) (R0.paths self.now) }
        ensures result { IfOk result (λ v. IsSimplifiedAlone solver
            (asked I.Wide.width I.WideUInt.natural fill_rule OverlayRule.Subject options)
            options.preserve_input_collinear (R0.paths self.now) (plain_shapes I.whole v.items)) }
        ensures err { IfErr result (MayRefuseAlone options.preserve_input_collinear solver
            (paths_for Subject (R0.paths self.now))) }
    {
        let mut overlay = Overlay::new_custom(alloc, 0, options, solver)?;
        overlay.simplify_source(self, fill_rule)
    }
}
