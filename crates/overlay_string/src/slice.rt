//! A shape sliced along strings in one call.

ghost use Rattle.std.specs.Prelude.{◌∷◌, [], All, IfOk, IfErr};
ghost use Rattle.overlay_geom.specs.Paths.{paths_of_shape, plain_shapes};
ghost use Rattle.overlay_geom.specs.Points.{plain_points, AllInRange};
ghost use Rattle.overlay_geom.specs.declared.solver.Solver.TheVariants.{Rounds};
ghost use Rattle.overlay_string.specs.OneShot.{shape_and_strings, MayRefusePaths};
ghost use Rattle.overlay_string.specs.StringPaths.{paths_of_lines};
ghost use Rattle.overlay_string.specs.StringSlices.{AreSlicedOfPaths};

use crate::lines::BorrowedLines;
use crate::string_overlay::StringOverlay;
use overlay_geom::error::OverlayError;
use overlay_geom::fill_rule::FillRule;
use overlay_geom::integer::OverlayInt;
use overlay_geom::path::{IntLine, IntPath, IntShapes, PathRef};
use overlay_geom::resource::IntShapeResource;
use overlay_geom::resource::borrowed::BorrowedContours;
use overlay_geom::solver::Solver;
use std::alloc::Allocator;

/// Slices this resource, whose paths are the closed contours of a shape, along open strings; points of the
/// contours on one line are dropped. The points of both are in the coordinate range. Each answer is that of
/// `StringGraph::extract_shapes` on a view of a new builder, or no shapes where there is no edge. A call without a
/// solver takes `Solver::ABSOLUTE`.
///
/// Refusals are `Memory`, `NotSettled` (never with `Solver::SNAPPED`) and `TooManyEdges`; nothing of the caller's is
/// changed.
pub trait IntSlice<I: OverlayInt>: IntShapeResource<I> {
    /// The shapes into which the string from the first point of the line to the second one cuts it.
    fn slice_by_line<A: Allocator + Clone>(
        &self,
        alloc: A,
        line: IntLine<I>,
        fill_rule: FillRule,
    ) -> Result<IntShapes<I, A>, OverlayError>
        requires self_in_range { All (AllInRange I.limit) (Self.paths self.now) }
        requires line_in_range { AllInRange I.limit (plain_points I.whole line) }
        ensures sliced { IfOk result (λ v. AreSlicedOfPaths Rounds I.Wide.width fill_rule
            (shape_and_strings (Self.paths self.now) (plain_points I.whole line ∷ []))
            (plain_shapes I.whole v.items)) }
        ensures err { IfErr result (MayRefusePaths Rounds
            (shape_and_strings (Self.paths self.now) (plain_points I.whole line ∷ []))) };

    /// As `slice_by_line`, with edges split by `solver`.
    fn slice_by_line_with_solver<A: Allocator + Clone>(
        &self,
        alloc: A,
        line: IntLine<I>,
        fill_rule: FillRule,
        solver: Solver,
    ) -> Result<IntShapes<I, A>, OverlayError>
        requires self_in_range { All (AllInRange I.limit) (Self.paths self.now) }
        requires line_in_range { AllInRange I.limit (plain_points I.whole line) }
        ensures sliced { IfOk result (λ v. AreSlicedOfPaths solver I.Wide.width fill_rule
            (shape_and_strings (Self.paths self.now) (plain_points I.whole line ∷ []))
            (plain_shapes I.whole v.items)) }
        ensures err { IfErr result (MayRefusePaths solver
            (shape_and_strings (Self.paths self.now) (plain_points I.whole line ∷ []))) };

    /// The shapes into which the strings from the first point of each line to its second one cut it.
    fn slice_by_lines<A: Allocator + Clone>(
        &self,
        alloc: A,
        lines: &[IntLine<I>],
        fill_rule: FillRule,
    ) -> Result<IntShapes<I, A>, OverlayError>
        requires self_in_range { All (AllInRange I.limit) (Self.paths self.now) }
        requires lines_in_range { All (AllInRange I.limit) (paths_of_lines I.whole lines.now) }
        ensures sliced { IfOk result (λ v. AreSlicedOfPaths Rounds I.Wide.width fill_rule
            (shape_and_strings (Self.paths self.now) (paths_of_lines I.whole lines.now))
            (plain_shapes I.whole v.items)) }
        ensures err { IfErr result (MayRefusePaths Rounds
            (shape_and_strings (Self.paths self.now) (paths_of_lines I.whole lines.now))) };

    /// As `slice_by_lines`, with edges split by `solver`.
    fn slice_by_lines_with_solver<A: Allocator + Clone>(
        &self,
        alloc: A,
        lines: &[IntLine<I>],
        fill_rule: FillRule,
        solver: Solver,
    ) -> Result<IntShapes<I, A>, OverlayError>
        requires self_in_range { All (AllInRange I.limit) (Self.paths self.now) }
        requires lines_in_range { All (AllInRange I.limit) (paths_of_lines I.whole lines.now) }
        ensures sliced { IfOk result (λ v. AreSlicedOfPaths solver I.Wide.width fill_rule
            (shape_and_strings (Self.paths self.now) (paths_of_lines I.whole lines.now))
            (plain_shapes I.whole v.items)) }
        ensures err { IfErr result (MayRefusePaths solver
            (shape_and_strings (Self.paths self.now) (paths_of_lines I.whole lines.now))) };

    /// The shapes into which the open string through the points of the path cuts it.
    fn slice_by_path<B: Allocator, A: Allocator + Clone>(
        &self,
        alloc: A,
        path: &IntPath<I, B>,
        fill_rule: FillRule,
    ) -> Result<IntShapes<I, A>, OverlayError>
        requires self_in_range { All (AllInRange I.limit) (Self.paths self.now) }
        requires path_in_range { AllInRange I.limit (plain_points I.whole path.now.items) }
        ensures sliced { IfOk result (λ v. AreSlicedOfPaths Rounds I.Wide.width fill_rule
            (shape_and_strings (Self.paths self.now) (plain_points I.whole path.now.items ∷ []))
            (plain_shapes I.whole v.items)) }
        ensures err { IfErr result (MayRefusePaths Rounds
            (shape_and_strings (Self.paths self.now) (plain_points I.whole path.now.items ∷ []))) };

    /// As `slice_by_path`, with edges split by `solver`.
    fn slice_by_path_with_solver<B: Allocator, A: Allocator + Clone>(
        &self,
        alloc: A,
        path: &IntPath<I, B>,
        fill_rule: FillRule,
        solver: Solver,
    ) -> Result<IntShapes<I, A>, OverlayError>
        requires self_in_range { All (AllInRange I.limit) (Self.paths self.now) }
        requires path_in_range { AllInRange I.limit (plain_points I.whole path.now.items) }
        ensures sliced { IfOk result (λ v. AreSlicedOfPaths solver I.Wide.width fill_rule
            (shape_and_strings (Self.paths self.now) (plain_points I.whole path.now.items ∷ []))
            (plain_shapes I.whole v.items)) }
        ensures err { IfErr result (MayRefusePaths solver
            (shape_and_strings (Self.paths self.now) (plain_points I.whole path.now.items ∷ []))) };

    /// The shapes into which the open strings through the points of each path cut it.
    fn slice_by_paths<B: Allocator, A: Allocator + Clone>(
        &self,
        alloc: A,
        paths: &[IntPath<I, B>],
        fill_rule: FillRule,
    ) -> Result<IntShapes<I, A>, OverlayError>
        requires self_in_range { All (AllInRange I.limit) (Self.paths self.now) }
        requires paths_in_range { All (AllInRange I.limit) (paths_of_shape I.whole paths.now) }
        ensures sliced { IfOk result (λ v. AreSlicedOfPaths Rounds I.Wide.width fill_rule
            (shape_and_strings (Self.paths self.now) (paths_of_shape I.whole paths.now))
            (plain_shapes I.whole v.items)) }
        ensures err { IfErr result (MayRefusePaths Rounds
            (shape_and_strings (Self.paths self.now) (paths_of_shape I.whole paths.now))) };

    /// As `slice_by_paths`, with edges split by `solver`.
    fn slice_by_paths_with_solver<B: Allocator, A: Allocator + Clone>(
        &self,
        alloc: A,
        paths: &[IntPath<I, B>],
        fill_rule: FillRule,
        solver: Solver,
    ) -> Result<IntShapes<I, A>, OverlayError>
        requires self_in_range { All (AllInRange I.limit) (Self.paths self.now) }
        requires paths_in_range { All (AllInRange I.limit) (paths_of_shape I.whole paths.now) }
        ensures sliced { IfOk result (λ v. AreSlicedOfPaths solver I.Wide.width fill_rule
            (shape_and_strings (Self.paths self.now) (paths_of_shape I.whole paths.now))
            (plain_shapes I.whole v.items)) }
        ensures err { IfErr result (MayRefusePaths solver
            (shape_and_strings (Self.paths self.now) (paths_of_shape I.whole paths.now))) };

    /// The shapes into which all paths of the other resource cut it, each an open string.
    fn slice_by_source<R1: IntShapeResource<I>, A: Allocator + Clone>(
        &self,
        alloc: A,
        source: &R1,
        fill_rule: FillRule,
    ) -> Result<IntShapes<I, A>, OverlayError>
        requires self_in_range { All (AllInRange I.limit) (Self.paths self.now) }
        requires source_in_range { All (AllInRange I.limit) (R1.paths source.now) }
        ensures sliced { IfOk result (λ v. AreSlicedOfPaths Rounds I.Wide.width fill_rule
            (shape_and_strings (Self.paths self.now) (R1.paths source.now)) (plain_shapes I.whole v.items)) }
        ensures err { IfErr result (MayRefusePaths Rounds
            (shape_and_strings (Self.paths self.now) (R1.paths source.now))) };

    /// As `slice_by_source`, with edges split by `solver`.
    fn slice_by_source_with_solver<R1: IntShapeResource<I>, A: Allocator + Clone>(
        &self,
        alloc: A,
        source: &R1,
        fill_rule: FillRule,
        solver: Solver,
    ) -> Result<IntShapes<I, A>, OverlayError>
        requires self_in_range { All (AllInRange I.limit) (Self.paths self.now) }
        requires source_in_range { All (AllInRange I.limit) (R1.paths source.now) }
        ensures sliced { IfOk result (λ v. AreSlicedOfPaths solver I.Wide.width fill_rule
            (shape_and_strings (Self.paths self.now) (R1.paths source.now)) (plain_shapes I.whole v.items)) }
        ensures err { IfErr result (MayRefusePaths solver
            (shape_and_strings (Self.paths self.now) (R1.paths source.now))) };
}

impl<I: OverlayInt, R0: IntShapeResource<I>> IntSlice<I> for R0 {
    fn slice_by_line<A: Allocator + Clone>(
        &self,
        alloc: A,
        line: IntLine<I>,
        fill_rule: FillRule,
    ) -> Result<IntShapes<I, A>, OverlayError>
        requires self_in_range { All (AllInRange I.limit) (R0.paths self.now) }
        requires line_in_range { AllInRange I.limit (plain_points I.whole line) }
        ensures sliced { IfOk result (λ v. AreSlicedOfPaths Rounds I.Wide.width fill_rule
            (shape_and_strings (R0.paths self.now) (plain_points I.whole line ∷ []))
            (plain_shapes I.whole v.items)) }
        ensures err { IfErr result (MayRefusePaths Rounds
            (shape_and_strings (R0.paths self.now) (plain_points I.whole line ∷ []))) }
    {
        self.slice_by_line_with_solver(alloc, line, fill_rule, Solver::ABSOLUTE)
    }

    fn slice_by_line_with_solver<A: Allocator + Clone>(
        &self,
        alloc: A,
        line: IntLine<I>,
        fill_rule: FillRule,
        solver: Solver,
    ) -> Result<IntShapes<I, A>, OverlayError>
        requires self_in_range { All (AllInRange I.limit) (R0.paths self.now) }
        requires line_in_range { AllInRange I.limit (plain_points I.whole line) }
        ensures sliced { IfOk result (λ v. AreSlicedOfPaths solver I.Wide.width fill_rule
            (shape_and_strings (R0.paths self.now) (plain_points I.whole line ∷ []))
            (plain_shapes I.whole v.items)) }
        ensures err { IfErr result (MayRefusePaths solver
            (shape_and_strings (R0.paths self.now) (plain_points I.whole line ∷ []))) }
    {
        self.slice_by_source_with_solver(alloc, &PathRef::new(&line), fill_rule, solver)
    }

    fn slice_by_lines<A: Allocator + Clone>(
        &self,
        alloc: A,
        lines: &[IntLine<I>],
        fill_rule: FillRule,
    ) -> Result<IntShapes<I, A>, OverlayError> {
        self.slice_by_lines_with_solver(alloc, lines, fill_rule, Solver::ABSOLUTE)
    }

    fn slice_by_lines_with_solver<A: Allocator + Clone>(
        &self,
        alloc: A,
        lines: &[IntLine<I>],
        fill_rule: FillRule,
        solver: Solver,
    ) -> Result<IntShapes<I, A>, OverlayError> {
        self.slice_by_source_with_solver(alloc, &BorrowedLines { lines }, fill_rule, solver)
    }

    fn slice_by_path<B: Allocator, A: Allocator + Clone>(
        &self,
        alloc: A,
        path: &IntPath<I, B>,
        fill_rule: FillRule,
    ) -> Result<IntShapes<I, A>, OverlayError> {
        self.slice_by_path_with_solver(alloc, path, fill_rule, Solver::ABSOLUTE)
    }

    fn slice_by_path_with_solver<B: Allocator, A: Allocator + Clone>(
        &self,
        alloc: A,
        path: &IntPath<I, B>,
        fill_rule: FillRule,
        solver: Solver,
    ) -> Result<IntShapes<I, A>, OverlayError> {
        self.slice_by_source_with_solver(alloc, path, fill_rule, solver)
    }

    fn slice_by_paths<B: Allocator, A: Allocator + Clone>(
        &self,
        alloc: A,
        paths: &[IntPath<I, B>],
        fill_rule: FillRule,
    ) -> Result<IntShapes<I, A>, OverlayError> {
        self.slice_by_paths_with_solver(alloc, paths, fill_rule, Solver::ABSOLUTE)
    }

    fn slice_by_paths_with_solver<B: Allocator, A: Allocator + Clone>(
        &self,
        alloc: A,
        paths: &[IntPath<I, B>],
        fill_rule: FillRule,
        solver: Solver,
    ) -> Result<IntShapes<I, A>, OverlayError> {
        self.slice_by_source_with_solver(
            alloc,
            &BorrowedContours { contours: paths },
            fill_rule,
            solver,
        )
    }

    fn slice_by_source<R1: IntShapeResource<I>, A: Allocator + Clone>(
        &self,
        alloc: A,
        source: &R1,
        fill_rule: FillRule,
    ) -> Result<IntShapes<I, A>, OverlayError> {
        self.slice_by_source_with_solver(alloc, source, fill_rule, Solver::ABSOLUTE)
    }

    fn slice_by_source_with_solver<R1: IntShapeResource<I>, A: Allocator + Clone>(
        &self,
        alloc: A,
        source: &R1,
        fill_rule: FillRule,
        solver: Solver,
    ) -> Result<IntShapes<I, A>, OverlayError> {
        let overlay = StringOverlay::from_shape_and_string(alloc, self, source)?;
        overlay.into_slices(fill_rule, solver)
    }
}
