//! Strings clipped by a shape in one call.

ghost use Rattle.std.specs.Prelude.{◌∷◌, [], All, IfOk, IfErr};
ghost use Rattle.overlay_geom.specs.Flat.{paths_in};
ghost use Rattle.overlay_geom.specs.Packed.{IsPacked};
ghost use Rattle.overlay_geom.specs.Paths.{paths_of_shape};
ghost use Rattle.overlay_geom.specs.Points.{plain_points, AllInRange};
ghost use Rattle.overlay_geom.specs.declared.solver.Solver.TheVariants.{Rounds};
ghost use Rattle.overlay_string.specs.OneShot.{shape_and_strings, AreClippedOfPaths, MayRefusePaths};
ghost use Rattle.overlay_string.specs.StringPaths.{paths_of_lines};

use crate::clip_rule::ClipRule;
use crate::lines::BorrowedLines;
use crate::string_overlay::StringOverlay;
use overlay_geom::error::OverlayError;
use overlay_geom::fill_rule::FillRule;
use overlay_geom::flat::contours::FlatContoursBuffer;
use overlay_geom::integer::OverlayInt;
use overlay_geom::path::{IntLine, IntPath, PathRef};
use overlay_geom::resource::IntShapeResource;
use overlay_geom::resource::borrowed::BorrowedContours;
use overlay_geom::solver::Solver;
use std::alloc::Allocator;

/// Clips strings by this resource, whose paths are the closed contours of a shape; points of these on one line are
/// dropped. The points of both are in the coordinate range. Each answer is that of `clip_string_lines_with_solver`
/// on a new builder. A call without a solver takes `Solver::ABSOLUTE`.
///
/// Refusals are `Memory`, `NotSettled` (never with `Solver::SNAPPED`) and `TooManyEdges`; nothing of the caller's is
/// changed.
pub trait IntClip<I: OverlayInt>: IntShapeResource<I> {
    /// Returns the kept parts of the string from the first point of the line to the second.
    fn clip_line<A: Allocator + Clone>(
        &self,
        alloc: A,
        line: IntLine<I>,
        fill_rule: FillRule,
        clip_rule: ClipRule,
    ) -> Result<Vec<IntPath<I, A>, A>, OverlayError>
        requires self_in_range { All (AllInRange I.limit) (Self.paths self.now) }
        requires line_in_range { AllInRange I.limit (plain_points I.whole line) }
        ensures clipped { IfOk result (λ v. AreClippedOfPaths Rounds fill_rule clip_rule
            (shape_and_strings (Self.paths self.now) (plain_points I.whole line ∷ []))
            (paths_of_shape I.whole v.items)) }
        ensures err { IfErr result (MayRefusePaths Rounds
            (shape_and_strings (Self.paths self.now) (plain_points I.whole line ∷ []))) };

    /// As `clip_line`, with edges split by `solver`.
    fn clip_line_with_solver<A: Allocator + Clone>(
        &self,
        alloc: A,
        line: IntLine<I>,
        fill_rule: FillRule,
        clip_rule: ClipRule,
        solver: Solver,
    ) -> Result<Vec<IntPath<I, A>, A>, OverlayError>
        requires self_in_range { All (AllInRange I.limit) (Self.paths self.now) }
        requires line_in_range { AllInRange I.limit (plain_points I.whole line) }
        ensures clipped { IfOk result (λ v. AreClippedOfPaths solver fill_rule clip_rule
            (shape_and_strings (Self.paths self.now) (plain_points I.whole line ∷ []))
            (paths_of_shape I.whole v.items)) }
        ensures err { IfErr result (MayRefusePaths solver
            (shape_and_strings (Self.paths self.now) (plain_points I.whole line ∷ []))) };

    /// Returns the kept parts of the strings from the first point of each line to its second.
    fn clip_lines<A: Allocator + Clone>(
        &self,
        alloc: A,
        lines: &[IntLine<I>],
        fill_rule: FillRule,
        clip_rule: ClipRule,
    ) -> Result<Vec<IntPath<I, A>, A>, OverlayError>
        requires self_in_range { All (AllInRange I.limit) (Self.paths self.now) }
        requires lines_in_range { All (AllInRange I.limit) (paths_of_lines I.whole lines.now) }
        ensures clipped { IfOk result (λ v. AreClippedOfPaths Rounds fill_rule clip_rule
            (shape_and_strings (Self.paths self.now) (paths_of_lines I.whole lines.now))
            (paths_of_shape I.whole v.items)) }
        ensures err { IfErr result (MayRefusePaths Rounds
            (shape_and_strings (Self.paths self.now) (paths_of_lines I.whole lines.now))) };

    /// As `clip_lines`, with edges split by `solver`.
    fn clip_lines_with_solver<A: Allocator + Clone>(
        &self,
        alloc: A,
        lines: &[IntLine<I>],
        fill_rule: FillRule,
        clip_rule: ClipRule,
        solver: Solver,
    ) -> Result<Vec<IntPath<I, A>, A>, OverlayError>
        requires self_in_range { All (AllInRange I.limit) (Self.paths self.now) }
        requires lines_in_range { All (AllInRange I.limit) (paths_of_lines I.whole lines.now) }
        ensures clipped { IfOk result (λ v. AreClippedOfPaths solver fill_rule clip_rule
            (shape_and_strings (Self.paths self.now) (paths_of_lines I.whole lines.now))
            (paths_of_shape I.whole v.items)) }
        ensures err { IfErr result (MayRefusePaths solver
            (shape_and_strings (Self.paths self.now) (paths_of_lines I.whole lines.now))) };

    /// Returns the kept parts of the open string through the points of the path.
    fn clip_path<B: Allocator, A: Allocator + Clone>(
        &self,
        alloc: A,
        path: &IntPath<I, B>,
        fill_rule: FillRule,
        clip_rule: ClipRule,
    ) -> Result<Vec<IntPath<I, A>, A>, OverlayError>
        requires self_in_range { All (AllInRange I.limit) (Self.paths self.now) }
        requires path_in_range { AllInRange I.limit (plain_points I.whole path.now.items) }
        ensures clipped { IfOk result (λ v. AreClippedOfPaths Rounds fill_rule clip_rule
            (shape_and_strings (Self.paths self.now) (plain_points I.whole path.now.items ∷ []))
            (paths_of_shape I.whole v.items)) }
        ensures err { IfErr result (MayRefusePaths Rounds
            (shape_and_strings (Self.paths self.now) (plain_points I.whole path.now.items ∷ []))) };

    /// As `clip_path`, with edges split by `solver`.
    fn clip_path_with_solver<B: Allocator, A: Allocator + Clone>(
        &self,
        alloc: A,
        path: &IntPath<I, B>,
        fill_rule: FillRule,
        clip_rule: ClipRule,
        solver: Solver,
    ) -> Result<Vec<IntPath<I, A>, A>, OverlayError>
        requires self_in_range { All (AllInRange I.limit) (Self.paths self.now) }
        requires path_in_range { AllInRange I.limit (plain_points I.whole path.now.items) }
        ensures clipped { IfOk result (λ v. AreClippedOfPaths solver fill_rule clip_rule
            (shape_and_strings (Self.paths self.now) (plain_points I.whole path.now.items ∷ []))
            (paths_of_shape I.whole v.items)) }
        ensures err { IfErr result (MayRefusePaths solver
            (shape_and_strings (Self.paths self.now) (plain_points I.whole path.now.items ∷ []))) };

    /// Returns the kept parts of the open strings through the points of each path.
    fn clip_paths<B: Allocator, A: Allocator + Clone>(
        &self,
        alloc: A,
        paths: &[IntPath<I, B>],
        fill_rule: FillRule,
        clip_rule: ClipRule,
    ) -> Result<Vec<IntPath<I, A>, A>, OverlayError>
        requires self_in_range { All (AllInRange I.limit) (Self.paths self.now) }
        requires paths_in_range { All (AllInRange I.limit) (paths_of_shape I.whole paths.now) }
        ensures clipped { IfOk result (λ v. AreClippedOfPaths Rounds fill_rule clip_rule
            (shape_and_strings (Self.paths self.now) (paths_of_shape I.whole paths.now))
            (paths_of_shape I.whole v.items)) }
        ensures err { IfErr result (MayRefusePaths Rounds
            (shape_and_strings (Self.paths self.now) (paths_of_shape I.whole paths.now))) };

    /// As `clip_paths`, with edges split by `solver`.
    fn clip_paths_with_solver<B: Allocator, A: Allocator + Clone>(
        &self,
        alloc: A,
        paths: &[IntPath<I, B>],
        fill_rule: FillRule,
        clip_rule: ClipRule,
        solver: Solver,
    ) -> Result<Vec<IntPath<I, A>, A>, OverlayError>
        requires self_in_range { All (AllInRange I.limit) (Self.paths self.now) }
        requires paths_in_range { All (AllInRange I.limit) (paths_of_shape I.whole paths.now) }
        ensures clipped { IfOk result (λ v. AreClippedOfPaths solver fill_rule clip_rule
            (shape_and_strings (Self.paths self.now) (paths_of_shape I.whole paths.now))
            (paths_of_shape I.whole v.items)) }
        ensures err { IfErr result (MayRefusePaths solver
            (shape_and_strings (Self.paths self.now) (paths_of_shape I.whole paths.now))) };

    /// Returns the kept parts of all paths of the other resource, each an open string.
    fn clip_source<R1: IntShapeResource<I>, A: Allocator + Clone>(
        &self,
        alloc: A,
        source: &R1,
        fill_rule: FillRule,
        clip_rule: ClipRule,
    ) -> Result<Vec<IntPath<I, A>, A>, OverlayError>
        requires self_in_range { All (AllInRange I.limit) (Self.paths self.now) }
        requires source_in_range { All (AllInRange I.limit) (R1.paths source.now) }
        ensures clipped { IfOk result (λ v. AreClippedOfPaths Rounds fill_rule clip_rule
            (shape_and_strings (Self.paths self.now) (R1.paths source.now))
            (paths_of_shape I.whole v.items)) }
        ensures err { IfErr result (MayRefusePaths Rounds
            (shape_and_strings (Self.paths self.now) (R1.paths source.now))) };

    /// As `clip_source`, with edges split by `solver`.
    fn clip_source_with_solver<R1: IntShapeResource<I>, A: Allocator + Clone>(
        &self,
        alloc: A,
        source: &R1,
        fill_rule: FillRule,
        clip_rule: ClipRule,
        solver: Solver,
    ) -> Result<Vec<IntPath<I, A>, A>, OverlayError>
        requires self_in_range { All (AllInRange I.limit) (Self.paths self.now) }
        requires source_in_range { All (AllInRange I.limit) (R1.paths source.now) }
        ensures clipped { IfOk result (λ v. AreClippedOfPaths solver fill_rule clip_rule
            (shape_and_strings (Self.paths self.now) (R1.paths source.now))
            (paths_of_shape I.whole v.items)) }
        ensures err { IfErr result (MayRefusePaths solver
            (shape_and_strings (Self.paths self.now) (R1.paths source.now))) };

    /// As `clip_source_with_solver`, with the paths' points in a single list, without gaps.
    fn clip_source_flat<R1: IntShapeResource<I>, A: Allocator + Clone>(
        &self,
        alloc: A,
        source: &R1,
        fill_rule: FillRule,
        clip_rule: ClipRule,
        solver: Solver,
    ) -> Result<FlatContoursBuffer<I, A>, OverlayError>
        requires self_in_range { All (AllInRange I.limit) (Self.paths self.now) }
        requires source_in_range { All (AllInRange I.limit) (R1.paths source.now) }
        ensures clipped { IfOk result (λ b. AreClippedOfPaths solver fill_rule clip_rule
            (shape_and_strings (Self.paths self.now) (R1.paths source.now))
            (paths_in I.whole b.points.items b.ranges.items)) }
        ensures packed { IfOk result (λ b. IsPacked b.points.items b.ranges.items) }
        ensures err { IfErr result (MayRefusePaths solver
            (shape_and_strings (Self.paths self.now) (R1.paths source.now))) };
}

impl<I: OverlayInt, R0: IntShapeResource<I>> IntClip<I> for R0 {
    fn clip_line<A: Allocator + Clone>(
        &self,
        alloc: A,
        line: IntLine<I>,
        fill_rule: FillRule,
        clip_rule: ClipRule,
    ) -> Result<Vec<IntPath<I, A>, A>, OverlayError>
        requires self_in_range { All (AllInRange I.limit) (R0.paths self.now) }
        requires line_in_range { AllInRange I.limit (plain_points I.whole line) }
        ensures clipped { IfOk result (λ v. AreClippedOfPaths Rounds fill_rule clip_rule
            (shape_and_strings (R0.paths self.now) (plain_points I.whole line ∷ []))
            (paths_of_shape I.whole v.items)) }
        ensures err { IfErr result (MayRefusePaths Rounds
            (shape_and_strings (R0.paths self.now) (plain_points I.whole line ∷ []))) }
    {
        self.clip_line_with_solver(alloc, line, fill_rule, clip_rule, Solver::ABSOLUTE)
    }

    fn clip_line_with_solver<A: Allocator + Clone>(
        &self,
        alloc: A,
        line: IntLine<I>,
        fill_rule: FillRule,
        clip_rule: ClipRule,
        solver: Solver,
    ) -> Result<Vec<IntPath<I, A>, A>, OverlayError>
        requires self_in_range { All (AllInRange I.limit) (R0.paths self.now) }
        requires line_in_range { AllInRange I.limit (plain_points I.whole line) }
        ensures clipped { IfOk result (λ v. AreClippedOfPaths solver fill_rule clip_rule
            (shape_and_strings (R0.paths self.now) (plain_points I.whole line ∷ []))
            (paths_of_shape I.whole v.items)) }
        ensures err { IfErr result (MayRefusePaths solver
            (shape_and_strings (R0.paths self.now) (plain_points I.whole line ∷ []))) }
    {
        self.clip_source_with_solver(alloc, &PathRef::new(&line), fill_rule, clip_rule, solver)
    }

    fn clip_lines<A: Allocator + Clone>(
        &self,
        alloc: A,
        lines: &[IntLine<I>],
        fill_rule: FillRule,
        clip_rule: ClipRule,
    ) -> Result<Vec<IntPath<I, A>, A>, OverlayError> {
        self.clip_lines_with_solver(alloc, lines, fill_rule, clip_rule, Solver::ABSOLUTE)
    }

    fn clip_lines_with_solver<A: Allocator + Clone>(
        &self,
        alloc: A,
        lines: &[IntLine<I>],
        fill_rule: FillRule,
        clip_rule: ClipRule,
        solver: Solver,
    ) -> Result<Vec<IntPath<I, A>, A>, OverlayError> {
        self.clip_source_with_solver(
            alloc,
            &BorrowedLines { lines },
            fill_rule,
            clip_rule,
            solver,
        )
    }

    fn clip_path<B: Allocator, A: Allocator + Clone>(
        &self,
        alloc: A,
        path: &IntPath<I, B>,
        fill_rule: FillRule,
        clip_rule: ClipRule,
    ) -> Result<Vec<IntPath<I, A>, A>, OverlayError> {
        self.clip_path_with_solver(alloc, path, fill_rule, clip_rule, Solver::ABSOLUTE)
    }

    fn clip_path_with_solver<B: Allocator, A: Allocator + Clone>(
        &self,
        alloc: A,
        path: &IntPath<I, B>,
        fill_rule: FillRule,
        clip_rule: ClipRule,
        solver: Solver,
    ) -> Result<Vec<IntPath<I, A>, A>, OverlayError> {
        self.clip_source_with_solver(alloc, path, fill_rule, clip_rule, solver)
    }

    fn clip_paths<B: Allocator, A: Allocator + Clone>(
        &self,
        alloc: A,
        paths: &[IntPath<I, B>],
        fill_rule: FillRule,
        clip_rule: ClipRule,
    ) -> Result<Vec<IntPath<I, A>, A>, OverlayError> {
        self.clip_paths_with_solver(alloc, paths, fill_rule, clip_rule, Solver::ABSOLUTE)
    }

    fn clip_paths_with_solver<B: Allocator, A: Allocator + Clone>(
        &self,
        alloc: A,
        paths: &[IntPath<I, B>],
        fill_rule: FillRule,
        clip_rule: ClipRule,
        solver: Solver,
    ) -> Result<Vec<IntPath<I, A>, A>, OverlayError> {
        self.clip_source_with_solver(
            alloc,
            &BorrowedContours { contours: paths },
            fill_rule,
            clip_rule,
            solver,
        )
    }

    fn clip_source<R1: IntShapeResource<I>, A: Allocator + Clone>(
        &self,
        alloc: A,
        source: &R1,
        fill_rule: FillRule,
        clip_rule: ClipRule,
    ) -> Result<Vec<IntPath<I, A>, A>, OverlayError> {
        self.clip_source_with_solver(alloc, source, fill_rule, clip_rule, Solver::ABSOLUTE)
    }

    fn clip_source_with_solver<R1: IntShapeResource<I>, A: Allocator + Clone>(
        &self,
        alloc: A,
        source: &R1,
        fill_rule: FillRule,
        clip_rule: ClipRule,
        solver: Solver,
    ) -> Result<Vec<IntPath<I, A>, A>, OverlayError> {
        let overlay = StringOverlay::from_shape_and_string(alloc, self, source)?;
        overlay.clip_string_lines_with_solver(fill_rule, clip_rule, solver)
    }

    fn clip_source_flat<R1: IntShapeResource<I>, A: Allocator + Clone>(
        &self,
        alloc: A,
        source: &R1,
        fill_rule: FillRule,
        clip_rule: ClipRule,
        solver: Solver,
    ) -> Result<FlatContoursBuffer<I, A>, OverlayError> {
        let overlay = StringOverlay::from_shape_and_string(alloc, self, source)?;
        overlay.clip_string_lines_flat(fill_rule, clip_rule, solver)
    }
}
