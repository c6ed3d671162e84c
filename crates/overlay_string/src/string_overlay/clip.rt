//! Strings, clipped by the shape.

ghost use Rattle.std.specs.Prelude.{◌≡◌, ◌⊎◌, ◌↔◌, true, IfOk, IfErr, IsErrOf};
ghost use Rattle.overlay_geom.specs.Flat.{paths_in};
ghost use Rattle.overlay_geom.specs.Packed.{IsPacked};
ghost use Rattle.overlay_geom.specs.Paths.{paths_of_shape};
ghost use Rattle.overlay_geom.specs.declared.solver.Solver.TheVariants.{Rounds};
ghost use Rattle.overlay_graph.specs.Graphs.{graph_edges};
ghost use Rattle.overlay_graph.specs.Arranged.{MayRefuseSplitting};
ghost use Rattle.overlay_string.specs.ClipPaths.{ArePathsOf, AreClipped};
ghost use Rattle.overlay_string.specs.ClipPieces.{clip_pieces};

use crate::clip_rule::ClipRule;
use crate::joined_paths::joined_paths;
use crate::kept_pieces::kept_pieces;
use crate::open_pieces::OpenPieces;
use crate::string_overlay::StringOverlay;
use overlay_geom::error::OverlayError;
use overlay_geom::fill_rule::FillRule;
use overlay_geom::flat::contours::FlatContoursBuffer;
use overlay_geom::flat::copied;
use overlay_geom::integer::OverlayInt;
use overlay_geom::number::IntNumber;
use overlay_geom::path::IntPath;
use overlay_geom::resource::IntShapeResource;
use overlay_geom::solver::Solver;
use overlay_graph::graph::Graph;
use overlay_order::string_count::ShapeCountString;
use std::alloc::{AllocError, Allocator};

impl<I: OverlayInt, A: Allocator + Clone> StringOverlay<I, A> {
    /// Splits the edges where they meet, and gives the parts of the strings that the clip rule keeps, as paths.
    ///
    /// The shape is what the fill rule fills. A part of a string lies along an edge of the arrangement; it is passed
    /// once in each direction in which a string runs over it, however many strings do. The first edge in order, by its
    /// smaller and then its larger end, with a part that no path has yet, begins a path. If the part from its smaller
    /// end is left, the path begins with that. It goes on at its end by the first edge in order with a part that leaves
    /// this point, until there is none. Else the path ends with the other part, and goes on at its beginning, by the
    /// first edge in order with a part that arrives there.
    ///
    /// Refusals: `Failed` before anything else; `NotSettled` where edges still meet in points that are no ends of both
    /// after 64 rounds; `TooManyEdges` where a round brings the weight to 2^31; `Memory`. The builder is dropped.
    pub fn clip_string_lines(
        self,
        fill_rule: FillRule,
        clip_rule: ClipRule,
    ) -> Result<Vec<IntPath<I, A>, A>, OverlayError>
        ensures clipped { IfOk result (λ v.
            AreClipped Rounds fill_rule clip_rule self.edges (paths_of_shape I.whole v.items)) }
        ensures failed { IsErrOf result OverlayError.Failed ↔ (self.failed ≡ true) }
        ensures err { IfErr result (λ e. (e ≡ OverlayError.Failed) ⊎ MayRefuseSplitting Rounds self.edges e) }
    {
        self.clip_string_lines_with_solver(fill_rule, clip_rule, Solver::ABSOLUTE)
    }

    /// As `clip_string_lines`, with edges split by `solver`: `NotSettled` never comes with `Solver::SNAPPED`.
    pub fn clip_string_lines_with_solver(
        self,
        fill_rule: FillRule,
        clip_rule: ClipRule,
        solver: Solver,
    ) -> Result<Vec<IntPath<I, A>, A>, OverlayError>
        ensures clipped { IfOk result (λ v.
            AreClipped solver fill_rule clip_rule self.edges (paths_of_shape I.whole v.items)) }
        ensures failed { IsErrOf result OverlayError.Failed ↔ (self.failed ≡ true) }
        ensures err { IfErr result (λ e. (e ≡ OverlayError.Failed) ⊎ MayRefuseSplitting solver self.edges e) }
    {
        let paths = self.clip_string_lines_flat(fill_rule, clip_rule, solver)?;
        Ok(listed(&paths)?)
    }

    /// As `clip_string_lines_with_solver`, with the paths' points in a single list, without gaps.
    pub fn clip_string_lines_flat(
        mut self,
        fill_rule: FillRule,
        clip_rule: ClipRule,
        solver: Solver,
    ) -> Result<FlatContoursBuffer<I, A>, OverlayError>
        ensures clipped { IfOk result (λ b.
            AreClipped solver fill_rule clip_rule self.edges (paths_in I.whole b.points.items b.ranges.items)) }
        ensures packed { IfOk result (λ b. IsPacked b.points.items b.ranges.items) }
        ensures failed { IsErrOf result OverlayError.Failed ↔ (self.failed ≡ true) }
        ensures err { IfErr result (λ e. (e ≡ OverlayError.Failed) ⊎ MayRefuseSplitting solver self.edges e) }
    {
        self.core.arrange(solver, &mut ())?;
        let graph = self.core.content().graph_of_balanced(fill_rule)?;
        let paths = clipped(&graph, clip_rule)?;
        Ok(paths)
    }
}

// Returns the paths of the pieces that a clip keeps of the graph's strings.
fn clipped<I: IntNumber, A: Allocator + Clone>(
    graph: &Graph<I, ShapeCountString, A>,
    rule: ClipRule,
) -> Result<FlatContoursBuffer<I, A>, AllocError>
    ensures paths { IfOk result (λ b. ArePathsOf
        (clip_pieces graph.now.fill_rule rule (graph_edges graph.now))
        (paths_in I.whole b.points.items b.ranges.items)) }
    ensures packed { IfOk result (λ b. IsPacked b.points.items b.ranges.items) }
{
    let kept = kept_pieces(graph, rule)?;
    let mut pieces = OpenPieces::new(kept)?;
    joined_paths(graph.allocator().clone()?, &mut pieces)
}

// Returns the paths as a list each.
fn listed<I: IntNumber, A: Allocator + Clone>(
    paths: &FlatContoursBuffer<I, A>,
) -> Result<Vec<IntPath<I, A>, A>, AllocError>
    ensures { IfOk result (λ v. paths_of_shape I.whole v.items
        ≡ paths_in I.whole paths.now.points.items paths.now.ranges.items) }
{
    let alloc = paths.points.allocator();
    let mut list = Vec::new(alloc.clone()?);
    for index in 0..paths.path_count() {
        list.push(copied(alloc.clone()?, paths.path(index))?)?;
    }
    Ok(list)
}
