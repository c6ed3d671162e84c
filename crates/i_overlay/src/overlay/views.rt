//! A view of what a builder holds.

ghost use Rattle.std.specs.Prelude.{◌≡◌, IfOk, IfSome};
ghost use Rattle.std.specs.Borrow.{sem};
ghost use Rattle.std.specs.Io.BufRead.{Rests};
ghost use Rattle.overlay_graph.specs.Arranged.{IsArranged};
ghost use Rattle.overlay_builder.specs.BuilderCalls.{EndsView};
ghost use Rattle.overlay_builder.specs.Held.{shown_edges};
ghost use Rattle.i_overlay.specs.Builder.{held_by};
ghost use Rattle.i_overlay.specs.Views.{IsView, viewed_edges};
ghost use Rattle.i_overlay.specs.contracts.overlay.Overlay.{the_row};
ghost use Rattle.i_overlay.specs.Queries.{BuilderAnswers};

use crate::graph::OverlayGraph;
use crate::overlay::Overlay;
use crate::viewed_graph::ViewedGraph;
use overlay_geom::error::OverlayError;
use overlay_geom::fill_rule::FillRule;
use overlay_geom::integer::OverlayInt;
use overlay_order::data::CountWithData;
use std::alloc::Allocator;

impl<I: OverlayInt, A: Allocator + Clone> Overlay<I, A> {
    /// Splits the edges where they meet, as `build_separate_vectors` does, and gives a view of them with their filled
    /// sides under the rule. It can be asked for contours again and again. `None` comes exactly where no edge is left.
    /// The view borrows the builder: no contour can be added while it is there.
    ///
    /// Refusals are those of `build_separate_vectors`.
    pub fn build_graph_view(
        &mut self,
        fill_rule: FillRule,
    ) -> Result<Option<OverlayGraph<'_, I, (), A>>, OverlayError>
        ensures arranged { IfOk result
            (λ o. IsArranged self.old.solver self.old.edges (shown_edges (λ v. viewed_edges v.viewed.now) o)) }
        ensures view { IfOk result (λ o. IfSome o
            (λ v. IsView self.old.solver fill_rule self.old.options self.old.edges v.viewed.now)) }
        ensures* after { sem 𝓛 (Rests
            (the_row I.row A.row I.Wide.row I.WideUInt.row I.IntNumber I.Wide.WideIntNumber I.WideUInt.UIntNumber
            A.Allocator)
            self.entry (λ new. EndsView I.limit self.old.solver (λ v. viewed_edges v.viewed.now) (held_by self.old)
            (held_by new) result × (new ≡ record self.old { edges = new.edges; failed = new.failed }))) }
    {
        let viewed = self.arranged_graph(fill_rule)?;
        let has_edges = !viewed.graph().edges().is_empty();
        self.viewed = Some(viewed);
        match &self.viewed {
            Some(viewed) if has_edges => Ok(Some(OverlayGraph { viewed })),
            _ => Ok(None),
        }
    }

    // What a view shows, once the edges are arranged. A refusal leaves the builder failed.
    fn arranged_graph(
        &mut self,
        fill_rule: FillRule,
    ) -> Result<ViewedGraph<I, CountWithData<()>, A>, OverlayError>
        ensures answers { BuilderAnswers I.limit self.old self.new result }
        ensures edges { IfOk result (λ v. viewed_edges v ≡ self.new.edges) }
        ensures rule { IfOk result (λ v. v.graph.fill_rule ≡ fill_rule) }
        ensures options { IfOk result (λ v. v.options ≡ self.old.options) }
    {
        self.core.arrange(self.solver, &mut ())?;
        let graph = self.graph_filled_by(fill_rule);
        self.core.set_failed(graph.is_err());
        Ok(ViewedGraph::new(graph?, self.options))
    }
}
