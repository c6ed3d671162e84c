//! The predicates of a builder: how its subject and its clip lie to each other.

ghost use Rattle.std.specs.Prelude.{◌≡◌, true, false, IfOk, IfSome, IsErrOf, is_err};
ghost use Rattle.overlay_plane.specs.Predicates.{Intersects, InteriorsIntersect, Touches, PointIntersects};
ghost use Rattle.overlay_plane.specs.Predicates.{IsWithin, Covers};
ghost use Rattle.overlay_order.specs.Content.{IsContent};
ghost use Rattle.overlay_graph.specs.FillTests.{some_fill_passes, IsFoundUnless};
ghost use Rattle.overlay_graph.specs.Graphs.{graph_edges};
ghost use Rattle.overlay_graph.specs.Arranged.{WasArranged};
ghost use Rattle.overlay_plane.specs.Balance.{HasBalancedCounts};
ghost use Rattle.overlay_builder.specs.Held.{AnswersQuery};
ghost use Rattle.overlay_relate.specs.EdgeTests.{bits_pass};
ghost use Rattle.overlay_relate.specs.Findings.{IsAnswering, Tells};
ghost use Rattle.overlay_relate.specs.Found.{IsFoundUnder};
ghost use Rattle.overlay_relate.specs.PredicateBuilder.{held_by};
ghost use Rattle.overlay_relate.specs.PredicateQueries.{Holds, TellsRelation, TellsRelations};

use crate::edge_answers::{finding_in, found_in};
use crate::edge_test::EdgeTest;
use crate::finding::{Finding, Told};
use crate::found::Found;
use crate::predicate::Predicate;
use crate::predicate_overlay::PredicateOverlay;
use crate::relations::Relations;
use overlay_geom::error::OverlayError;
use overlay_geom::integer::OverlayInt;
use overlay_graph::graph::Graph;
use overlay_order::count::ShapeCountBoolean;
use std::alloc::{AllocError, Allocator};

impl<I: OverlayInt, A: Allocator + Clone> PredicateOverlay<I, A> {
    /// Splits the edges where they meet, and tells whether some point lies in the closed regions of both shapes
    /// under `fill_rule`: each is the filled points, and the edges with a filled side.
    ///
    /// The edges are split by `solver`. By `Solver::ABSOLUTE` equal edges are merged in each round, and each
    /// edge is cut where others meet it; a meeting point that is not whole is rounded to one whole point, at
    /// most 1/2 away in x and in y. By `Solver::SNAPPED` each edge is led, once, through the hot points whose
    /// pixels it meets. What was arranged before, by either solver, stays as it is. The answer is that of the
    /// edges which are held afterwards, which lead forward, meet in ends alone and have balanced counts; where
    /// there are none it is `false`.
    ///
    /// The first query looks at the sides that shapes fill edge by edge, up to the first edge that tells its answer.
    /// The second query finds what answers all six predicates, unless it repeats the first. Until something is added,
    /// a further query under its rule, by either solver, looks at no edge and takes no memory. Under another rule it
    /// looks at the sides that shapes fill once more, and splits nothing.
    ///
    /// Refusals: `Failed` before anything else, and then nothing is changed; `NotSettled` (never with
    /// `Solver::SNAPPED`) where edges still meet in points that are no ends of both after 64 rounds;
    /// `TooManyEdges` where a round brings the weight to 2^31; `Memory`. After these three the builder has
    /// failed, and what it holds is left open.
    pub fn intersects(&mut self) -> Result<bool, OverlayError>
        ensures { TellsRelation I.limit Intersects self.old self.new result }
    {
        self.ask(Predicate::Intersect)
    }

    /// Splits the edges where they meet, and tells whether both shapes fill some point off the edges.
    /// Splitting and refusals are those of `intersects`.
    pub fn interiors_intersect(&mut self) -> Result<bool, OverlayError>
        ensures { TellsRelation I.limit InteriorsIntersect self.old self.new result }
    {
        self.ask(Predicate::InteriorsIntersect)
    }

    /// Splits the edges where they meet, and tells whether the shapes intersect, and their interiors do
    /// not. Splitting and refusals are those of `intersects`.
    pub fn touches(&mut self) -> Result<bool, OverlayError>
        ensures { TellsRelation I.limit Touches self.old self.new result }
    {
        self.ask(Predicate::Touch)
    }

    /// Splits the edges where they meet, and tells whether the shapes intersect, and no edge has a side that the
    /// subject fills and a side that the clip fills: they meet in single points alone. Splitting and refusals are
    /// those of `intersects`.
    pub fn point_intersects(&mut self) -> Result<bool, OverlayError>
        ensures { TellsRelation I.limit PointIntersects self.old self.new result }
    {
        self.ask(Predicate::PointIntersect)
    }

    /// Splits the edges where they meet, and tells whether the subject lies within the clip: it fills
    /// some point off the edges, and the clip fills each such point. Splitting and refusals are those of
    /// `intersects`.
    pub fn within(&mut self) -> Result<bool, OverlayError>
        ensures { TellsRelation I.limit IsWithin self.old self.new result }
    {
        self.ask(Predicate::Within)
    }

    /// Splits the edges where they meet, and tells whether the subject covers the clip: the clip fills some
    /// point off the edges, and the subject fills each such point. Splitting and refusals are those of
    /// `intersects`.
    pub fn covers(&mut self) -> Result<bool, OverlayError>
        ensures { TellsRelation I.limit Covers self.old self.new result }
    {
        self.ask(Predicate::Cover)
    }

    /// Splits the edges where they meet, and tells of each relation whether it holds of them. Splitting and
    /// refusals are those of `intersects`.
    pub fn relations(&mut self) -> Result<Relations, OverlayError>
        ensures { TellsRelations I.limit self.old self.new result }
    {
        self.arrange()?;
        let found = self.find()?;
        Ok(found.relations())
    }

    // Splits the edges where they meet, and tells whether the predicate holds of them.
    fn ask(&mut self, predicate: Predicate) -> Result<bool, OverlayError>
        ensures { TellsRelation I.limit (Holds predicate) self.old self.new result }
    {
        self.arrange()?;
        let answer = self.answer(predicate)?;
        Ok(answer)
    }

    // Tells whether the predicate holds of the arranged edges.
    fn answer(&mut self, predicate: Predicate) -> Result<bool, AllocError>
        requires usable { self.old.failed ≡ false }
        requires arranged { WasArranged self.old.edges }
        ensures ok { IfOk result (Tells self.old.fill_rule self.old.edges predicate) }
        ensures kept { self.new ≡ record self.old { failed = is_err result } }
    {
        if self.kept.is_none() {
            return self.answer_first(predicate);
        }
        if let Some(answer) = self.told_before(predicate) {
            return Ok(answer);
        }
        let found = self.find()?;
        Ok(found.answer(predicate))
    }

    // Answers a first query: tells whether the predicate holds of the arranged edges, and keeps the finding.
    fn answer_first(&mut self, predicate: Predicate) -> Result<bool, AllocError>
        requires usable { self.old.failed ≡ false }
        requires arranged { WasArranged self.old.edges }
        ensures ok { IfOk result (Tells self.old.fill_rule self.old.edges predicate) }
        ensures kept { self.new ≡ record self.old { failed = is_err result } }
    {
        match self.find_first(predicate) {
            Ok(finding) => {
                self.kept = Some(finding);
                Ok(finding.answer(predicate))
            }
            Err(error) => {
                self.fail();
                Err(error)
            }
        }
    }

    // Finds the answer of the predicate, up to the first edge that tells it. Where neither an edge nor the sides of all
    // tell it, finds the answers of all predicates.
    fn find_first(&self, predicate: Predicate) -> Result<Finding, AllocError>
        requires usable { self.now.failed ≡ false }
        requires arranged { WasArranged self.now.edges }
        ensures answering { IfOk result (IsAnswering self.now.fill_rule self.now.edges predicate) }
        ensures content { IsContent I.limit self.now.edges }
    {
        let fill_rule = self.fill_rule;
        match self.graph_unless(predicate.telling_test())? {
            Some(graph) => finding_in(&graph, fill_rule, predicate),
            None => Ok(Finding::One(Told {
                predicate,
                fill_rule,
                answer: predicate.is_told(),
            })),
        }
    }

    // Returns the kept answer, if it is the predicate's alone, under the fill rule.
    fn told_before(&self, predicate: Predicate) -> Option<bool>
        ensures { IfSome result (Tells self.now.fill_rule self.now.edges predicate) }
    {
        match self.kept {
            Some(Finding::One(told))
                if told.predicate == predicate && told.fill_rule == self.fill_rule => {
                Some(told.answer)
            }
            _ => None,
        }
    }

    /// Splits the edges where they meet. Where something was found of them they are an arrangement.
    pub(crate) fn arrange(&mut self) -> Result<(), OverlayError>
        ensures query { AnswersQuery I.limit self.old.solver (held_by self.old) (held_by self.new) result }
        ensures kept { self.new ≡ record self.old { edges = self.new.edges; failed = self.new.failed } }
        ensures untouched { IsErrOf result OverlayError.Failed → self.new ≡ self.old }
    {
        if self.kept.is_some() {
            return Ok(());
        }
        self.core.arrange(self.solver, &mut ())?;
        Ok(())
    }

    // Finds the answers of all predicates of the arranged edges, unless they are kept, and keeps them.
    fn find(&mut self) -> Result<Found, AllocError>
        requires usable { self.old.failed ≡ false }
        requires arranged { WasArranged self.old.edges }
        ensures ok { IfOk result (IsFoundUnder self.old.fill_rule self.old.edges) }
        ensures kept { self.new ≡ record self.old { failed = is_err result } }
    {
        if let Some(found) = self.found_before() {
            return Ok(found);
        }
        match self.find_anew() {
            Ok(found) => {
                self.kept = Some(Finding::All(found));
                Ok(found)
            }
            Err(error) => {
                self.fail();
                Err(error)
            }
        }
    }

    // Marks the builder as failed. It keeps no finding then.
    fn fail(&mut self)
        ensures { self.new ≡ record self.old { failed = true } }
    {
        self.kept = None;
        self.core.set_failed(true);
    }

    // What was found before under the fill rule.
    fn found_before(&self) -> Option<Found>
        ensures { IfSome result (IsFoundUnder self.now.fill_rule self.now.edges) }
    {
        match self.kept {
            Some(Finding::All(found)) if found.fill_rule == self.fill_rule => Some(found),
            _ => None,
        }
    }

    // What is found of the arranged edges, by the sides that the shapes fill.
    fn find_anew(&self) -> Result<Found, AllocError>
        requires usable { self.now.failed ≡ false }
        requires arranged { WasArranged self.now.edges }
        ensures ok { IfOk result (IsFoundUnder self.now.fill_rule self.now.edges) }
        ensures rule { IfOk result (λ f. f.fill_rule ≡ self.now.fill_rule) }
        ensures content { IsContent I.limit self.now.edges }
    {
        let graph = self.graph()?;
        found_in(&graph, self.fill_rule)
    }

    /// The graph of the arranged edges under the fill rule.
    pub(crate) fn graph(&self) -> Result<Graph<I, ShapeCountBoolean, A>, AllocError>
        requires usable { self.now.failed ≡ false }
        requires arranged { WasArranged self.now.edges }
        ensures edges { IfOk result (λ g. graph_edges g ≡ self.now.edges) }
        ensures rule { IfOk result (λ g. g.fill_rule ≡ self.now.fill_rule) }
        ensures balanced { HasBalancedCounts self.now.edges }
        ensures content { IsContent I.limit self.now.edges }
    {
        self.core.content().graph_of_balanced(self.fill_rule)
    }

    // Makes the graph of the arranged edges under the fill rule, unless the filled sides of some edge pass the test.
    fn graph_unless(
        &self,
        test: EdgeTest,
    ) -> Result<Option<Graph<I, ShapeCountBoolean, A>>, AllocError>
        requires usable { self.now.failed ≡ false }
        requires arranged { WasArranged self.now.edges }
        ensures found { IfOk result (IsFoundUnless
            (some_fill_passes (bits_pass test) self.now.fill_rule self.now.edges)
            (λ g. (graph_edges g ≡ self.now.edges) × (g.fill_rule ≡ self.now.fill_rule))) }
        ensures balanced { HasBalancedCounts self.now.edges }
        ensures content { IsContent I.limit self.now.edges }
    {
        self.core
            .content()
            .graph_of_balanced_unless(self.fill_rule, test)
    }
}
