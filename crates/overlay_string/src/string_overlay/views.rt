//! A view of the shape and the strings that a builder holds.

ghost use Rattle.std.specs.Prelude.{◌≡◌, ◌⊎◌, ◌↔◌, true, IfOk, IfErr, IfSome, IsErrOf};
ghost use Rattle.std.specs.Borrow.{sem};
ghost use Rattle.std.specs.Io.BufRead.{Rests};
ghost use Rattle.overlay_geom.specs.Paths.{plain_shapes};
ghost use Rattle.overlay_geom.specs.declared.solver.Solver.TheVariants.{Rounds};
ghost use Rattle.overlay_graph.specs.Graphs.{graph_edges};
ghost use Rattle.overlay_graph.specs.Arranged.{IsArranged, MayRefuseSplitting};
ghost use Rattle.overlay_builder.specs.BuilderCalls.{EndsView};
ghost use Rattle.overlay_builder.specs.Held.{AnswersQuery, shown_edges};
ghost use Rattle.overlay_string.specs.StringBuilder.{held_by};
ghost use Rattle.overlay_string.specs.StringSlices.{AreSliced};
ghost use Rattle.overlay_string.specs.StringViews.{IsStringView};
ghost use Rattle.overlay_string.specs.contracts.string_overlay.StringOverlay.{the_row};

use crate::string_graph::StringGraph;
use crate::string_overlay::StringOverlay;
use crate::string_rule::StringRule;
use overlay_builder::balanced_graph::BalancedGraph;
use overlay_geom::error::OverlayError;
use overlay_geom::fill_rule::FillRule;
use overlay_geom::integer::OverlayInt;
use overlay_geom::path::IntShapes;
use overlay_geom::solver::Solver;
use overlay_order::string_count::ShapeCountString;
use std::alloc::Allocator;

impl<I: OverlayInt, A: Allocator + Clone> StringOverlay<I, A> {
    /// Splits the edges where they meet, as `clip_string_lines` does, and gives a view of them with the sides that the
    /// shape fills under the rule. Strings fill nothing, closed ones neither. `None` comes exactly where no edge is
    /// left. The view borrows the builder: nothing can be added while it is there.
    ///
    /// Refusals: `Failed` before anything else, and then nothing is changed; `NotSettled` where edges still meet in
    /// points that are no ends of both after 64 rounds; `TooManyEdges` where a round brings the weight to 2^31;
    /// `Memory`. After these three the builder has failed, and what it holds is left open.
    pub fn build_graph_view(
        &mut self,
        fill_rule: FillRule,
    ) -> Result<Option<StringGraph<'_, I, A>>, OverlayError>
        ensures arranged { IfOk result
            (λ o. IsArranged Rounds self.old.edges (shown_edges (λ v. graph_edges v.graph.now) o)) }
        ensures view { IfOk result (λ o. IfSome o
            (λ v. IsStringView Rounds fill_rule self.old.edges v.graph.now)) }
        ensures* after { sem 𝓛 (Rests
            (the_row I.row A.row I.Wide.row I.WideUInt.row I.IntNumber I.Wide.WideIntNumber I.WideUInt.UIntNumber
            A.Allocator)
            self.entry (λ new. EndsView I.limit Rounds (λ v. graph_edges v.graph.now) (held_by self.old)
            (held_by new) result × (new ≡ record self.old { edges = new.edges; failed = new.failed }))) }
    {
        self.build_graph_view_with_solver(fill_rule, Solver::ABSOLUTE)
    }

    /// As `build_graph_view`, with edges split by `solver`: `NotSettled` never comes with `Solver::SNAPPED`.
    pub fn build_graph_view_with_solver(
        &mut self,
        fill_rule: FillRule,
        solver: Solver,
    ) -> Result<Option<StringGraph<'_, I, A>>, OverlayError>
        ensures arranged { IfOk result
            (λ o. IsArranged solver self.old.edges (shown_edges (λ v. graph_edges v.graph.now) o)) }
        ensures view { IfOk result (λ o. IfSome o
            (λ v. IsStringView solver fill_rule self.old.edges v.graph.now)) }
        ensures* after { sem 𝓛 (Rests
            (the_row I.row A.row I.Wide.row I.WideUInt.row I.IntNumber I.Wide.WideIntNumber I.WideUInt.UIntNumber
            A.Allocator)
            self.entry (λ new. EndsView I.limit solver (λ v. graph_edges v.graph.now) (held_by self.old)
            (held_by new) result × (new ≡ record self.old { edges = new.edges; failed = new.failed }))) }
    {
        let arranged = self.arranged_graph(fill_rule, solver)?;
        let has_edges = !arranged.graph().edges().is_empty();
        self.viewed = Some(arranged);
        match &self.viewed {
            Some(graph) if has_edges => Ok(Some(StringGraph { graph })),
            _ => Ok(None),
        }
    }

    // The shapes that a view gives, or no shapes where there is none.
    pub(crate) fn into_slices(
        mut self,
        fill_rule: FillRule,
        solver: Solver,
    ) -> Result<IntShapes<I, A>, OverlayError>
        ensures sliced { IfOk result (λ v. AreSliced I.Wide.width solver fill_rule self.edges
            (plain_shapes I.whole v.items)) }
        ensures failed { IsErrOf result OverlayError.Failed ↔ (self.failed ≡ true) }
        ensures err { IfErr result (λ e. (e ≡ OverlayError.Failed) ⊎ MayRefuseSplitting solver self.edges e) }
    {
        let arranged = self.arranged_graph(fill_rule, solver)?;
        StringGraph { graph: &arranged }.extract_shapes(StringRule::Slice)
    }

    // What a view shows, once the solver has arranged the edges. A refusal leaves the builder failed.
    fn arranged_graph(
        &mut self,
        fill_rule: FillRule,
        solver: Solver,
    ) -> Result<BalancedGraph<I, ShapeCountString, A>, OverlayError>
        ensures query { AnswersQuery I.limit solver (held_by self.old) (held_by self.new) result }
        ensures edges { IfOk result (λ g. graph_edges g ≡ self.new.edges) }
        ensures rule { IfOk result (λ g. g.fill_rule ≡ fill_rule) }
        ensures kept { self.new ≡ record self.old { edges = self.new.edges; failed = self.new.failed } }
        ensures untouched { IsErrOf result OverlayError.Failed → self.new ≡ self.old }
    {
        self.core.arrange(solver, &mut ())?;
        let graph = self.core.content().graph_of_balanced(fill_rule);
        self.core.set_failed(graph.is_err());
        Ok(BalancedGraph::new(graph?))
    }
}
