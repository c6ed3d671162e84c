//! The overlay builder: contours are added, and queries are answered.

ghost use Rattle.std.specs.List.{flat_map};
ghost use Rattle.std.specs.Prelude.{◌≡◌, false, [], map, Some, IfOk, OnOk, OnErr};
ghost use Rattle.overlay_order.specs.Content.{IsAscending};
ghost use Rattle.overlay_order.specs.Vectors.{plain_vector, vector_of};
ghost use Rattle.overlay_graph.specs.Graphs.{graph_edges};
ghost use Rattle.overlay_geom.specs.Flat.{paths_in};
ghost use Rattle.overlay_geom.specs.Packed.{IsPacked};
ghost use Rattle.overlay_geom.specs.Paths.{plain_shapes};
ghost use Rattle.overlay_geom.specs.Plane.{steps_of};
ghost use Rattle.overlay_geom.specs.Settled.{IsSettled};
ghost use Rattle.i_overlay.specs.Queries.{BuilderAnswers, BuilderExtracts};
ghost use Rattle.overlay_plane.specs.ShapeWindings.{steps_of_shapes};
ghost use Rattle.overlay_extract.specs.GivenRegion.{WindsRoundGiven};
ghost use Rattle.overlay_extract.specs.Results.{asked, IsResult, IsContoursResult};

use crate::solver::Solver;
use crate::viewed_graph::ViewedGraph;
use overlay_builder::builder_core::BuilderCore;
use overlay_extract::extract::{emptied, extract_contours, extract_shapes};
use overlay_geom::error::OverlayError;
use overlay_geom::fill_rule::FillRule;
use overlay_geom::flat::contours::FlatContoursBuffer;
use overlay_geom::integer::OverlayInt;
use overlay_geom::overlay_rule::OverlayRule;
use overlay_geom::path::IntShapes;
use overlay_graph::graph::Graph;
use overlay_order::data::CountWithData;
use overlay_order::vector::DataVectorEdge;
use overlay_walk::buffer::BooleanExtractionBuffer;
use std::alloc::{AllocError, Allocator};
use std::marker::Model;

mod adders;
mod alone;
mod constructors;
mod deprecated;
mod flat;
mod hierarchy;
mod shape_vectors;
mod simplify;
mod simplify_flat;
mod views;

pub use overlay_geom::options::{ContourDirection, IntOverlayOptions, ShapeType};

/// A builder that holds counted edges of a subject and of a clip, and answers queries on them.
///
/// A query that is refused leaves the builder failed: every call that returns a result then answers
/// `Failed`, until `clear` or a `reinit_` call.
#[derive(Drop)]
pub struct Overlay<I: OverlayInt, A: Allocator> {
    /// How edges are split where they meet.
    pub solver: Solver,
    /// How input is taken and how output looks.
    pub options: IntOverlayOptions<I::WideUInt>,
    /// Room that queries use again. What it holds changes no answer. After a refused query it may be
    /// gone: `None`, which is as good as an empty one.
    pub boolean_buffer: Option<BooleanExtractionBuffer<I, A>>,
    // the edges, and whether a query was refused since the builder was last cleared
    core: BuilderCore<I, CountWithData<()>, A>,
    // what the last view shows; no answer reads it
    viewed: Option<ViewedGraph<I, CountWithData<()>, A>>,
}

impl<I: OverlayInt, A: Allocator> Model for Overlay<I, A> {
    ghost use Rattle.overlay_plane.specs.Carried.{edges_in};
    ghost use Rattle.overlay_builder.specs.GivenPaths.{IsBalancedUnlessFailed};
    ghost use Rattle.i_overlay.specs.Builder.{Builder};

    ghost Value = { Builder I.WideUInt };

    ghost view = { λ o. record {
      solver = o.solver;
      options = o.options;
      boolean_buffer = o.boolean_buffer;
      edges = edges_in o.core.edges;
      failed = o.core.failed;
    } };

    ghost invariant = { λ o. IsBalancedUnlessFailed o.core.failed (edges_in o.core.edges) };
}

impl<I: OverlayInt, A: Allocator + Clone> Overlay<I, A> {
    /// Splits the edges where they meet, and gives every edge of this arrangement in order, by its smaller and then its
    /// larger end. Each has the sides that the subject and the clip fill under the rule, seen on the way from its
    /// smaller to its larger end.
    ///
    /// In each round equal edges are merged, and each edge is cut where others meet it; a meeting
    /// point that is not whole is rounded to one whole point, at most 1/2 away in x and in y. Edges
    /// that meet only in whole points or overlap need one round, and wind as before round every
    /// point of the plane. What was arranged before stays as it is.
    ///
    /// Refusals: `Failed` before anything else, and then nothing is changed; `NotSettled` where
    /// edges still meet in points that are no ends of both after 64 rounds; `TooManyEdges` where a
    /// round brings the weight to 2^31; `Memory`. After these three the builder has failed, and
    /// what it holds is left open.
    pub fn build_separate_vectors(
        &mut self,
        fill_rule: FillRule,
    ) -> Result<Vec<DataVectorEdge<I, ()>, A>, OverlayError>
        ensures answers { BuilderAnswers I.limit self.old self.new result }
        ensures listed { IfOk result (λ v.
            map (plain_vector I.whole) v.items ≡ map (vector_of fill_rule self.new.edges) self.new.edges) }
    {
        self.core.arrange(self.solver, &mut ())?;
        let listed = self.list(fill_rule);
        self.core.set_failed(listed.is_err());
        Ok(listed?)
    }

    /// Splits the edges where they meet, as `build_separate_vectors` does, and gives the contours
    /// round the region of the plane where the rules hold, as shapes: of each its outline first, and
    /// then its holes. Shapes and holes stand in the order in which they are found, from left to
    /// right.
    ///
    /// Outlines run in the direction `options.output_direction`, and holes against it. Unless
    /// `options.preserve_output_collinear`, points on one line with their two neighbours are dropped.
    /// Where no edge is left there is no shape. After an answer there is a buffer, `boolean_buffer`.
    ///
    /// A contour is found along the top edge at the leftmost lowest point of what is left, and begins
    /// with the step along that edge. Where outlines run counterclockwise each step has the region on its
    /// left. Of an outline the edge is filled below, so the step ends at the leftmost lowest point, which
    /// is the second of the outline; of a hole it is filled above, so the step leaves that point, and the
    /// hole begins there. Where outlines run clockwise it is the other way round. Where points are
    /// dropped a contour begins at the first one that is kept.
    ///
    /// A hole that touches its outline in a point is a part of the outline, which visits that point twice. An island
    /// that touches the border of its hole is a part of the hole. With `options.ogc` no contour visits a point twice:
    /// such a hole stands in its outline's shape, before the other holes of it, and such an island is a shape of its
    /// own.
    ///
    /// A contour is left out where its double area before points are dropped, wrapped to the wide
    /// type, without its sign and halved downwards, is below `options.min_output_area`. Of the holes
    /// that stay all go to the shape that stays, where it is the only one; where several stay, each
    /// goes to its parent among what is left, and one without a parent is left out. With `options.ogc` a
    /// hole that was cut from an outline stays in the shape of this one, and is left out with it.
    ///
    /// Refusals are those of `build_separate_vectors`.
    pub fn overlay(
        &mut self,
        overlay_rule: OverlayRule,
        fill_rule: FillRule,
    ) -> Result<IntShapes<I, A>, OverlayError>
        ensures answers { BuilderExtracts I.limit self.old self.new result }
        ensures result { IfOk result (λ v. IsResult
            (asked I.Wide.width I.WideUInt.natural fill_rule overlay_rule self.old.options)
            self.new.edges (plain_shapes I.whole v.items)) }
        ensures given { IfOk result (λ v. WindsRoundGiven
            (asked I.Wide.width I.WideUInt.natural fill_rule overlay_rule self.old.options)
            self.old.solver self.old.edges self.new.edges (steps_of_shapes (plain_shapes I.whole v.items))) }
        ensures empty { self.new.edges ≡ [] → IfOk result (λ v. v.items ≡ []) }
    {
        self.core.arrange(self.solver, &mut ())?;
        let shapes = self.extract(overlay_rule, fill_rule);
        self.core.set_failed(shapes.is_err());
        Ok(shapes?)
    }

    /// Splits the edges where they meet, as `build_separate_vectors` does, and writes the contours round the region
    /// where the rules hold into the output. They stand one behind the other, in the order in which they are found.
    /// What the output held is dropped.
    ///
    /// Contours are as those of `overlay`, but in one list: outlines and holes are not bound to shapes,
    /// so that none is left out but those below `options.min_output_area`. `options.ogc` is not read.
    /// After an answer there is a buffer, `boolean_buffer`.
    ///
    /// Refusals are those of `build_separate_vectors`; after any of them the output is empty.
    pub fn overlay_into<B: Allocator>(
        &mut self,
        overlay_rule: OverlayRule,
        fill_rule: FillRule,
        output: &mut FlatContoursBuffer<I, B>,
    ) -> Result<(), OverlayError>
        ensures answers { BuilderExtracts I.limit self.old self.new result }
        ensures result { OnOk result (IsContoursResult
            (asked I.Wide.width I.WideUInt.natural fill_rule overlay_rule self.old.options)
            self.new.edges (paths_in I.whole output.new.points.items output.new.ranges.items)) }
        ensures given { OnOk result (WindsRoundGiven
            (asked I.Wide.width I.WideUInt.natural fill_rule overlay_rule self.old.options)
            self.old.solver self.old.edges self.new.edges
            (flat_map steps_of (paths_in I.whole output.new.points.items output.new.ranges.items))) }
        ensures packed { OnOk result (IsPacked output.new.points.items output.new.ranges.items) }
        ensures no_points { OnErr result (output.new.points.items ≡ []) }
        ensures no_ranges { OnErr result (output.new.ranges.items ≡ []) }
    {
        emptied(output);
        self.core.arrange(self.solver, &mut ())?;
        let written = self.extract_into(overlay_rule, fill_rule, output);
        self.core.set_failed(written.is_err());
        Ok(written?)
    }

    // The arranged edges with their filled sides.
    fn list(&self, fill_rule: FillRule) -> Result<Vec<DataVectorEdge<I, ()>, A>, AllocError>
        requires usable { self.now.failed ≡ false }
        requires ascending { IsAscending self.now.edges }
        requires settled { IsSettled self.now.edges }
        ensures listed { IfOk result (λ v.
            map (plain_vector I.whole) v.items ≡ map (vector_of fill_rule self.now.edges) self.now.edges) }
    {
        self.graph_filled_by(fill_rule)?.separate_vectors()
    }

    // The shapes round the region of the arranged edges. The buffer is there afterwards.
    fn extract(
        &mut self,
        overlay_rule: OverlayRule,
        fill_rule: FillRule,
    ) -> Result<IntShapes<I, A>, AllocError>
        requires usable { self.old.failed ≡ false }
        requires ascending { IsAscending self.old.edges }
        requires settled { IsSettled self.old.edges }
        ensures result { IfOk result (λ v. IsResult
            (asked I.Wide.width I.WideUInt.natural fill_rule overlay_rule self.old.options)
            self.old.edges (plain_shapes I.whole v.items)) }
        ensures kept { self.new ≡ record self.old { boolean_buffer = self.new.boolean_buffer } }
        ensures buffer { OnOk result (self.new.boolean_buffer ≡ Some tt) }
    {
        let graph = self.graph_filled_by(fill_rule)?;
        let mut buffer = BooleanExtractionBuffer::taken_from(
            &mut self.boolean_buffer,
            graph.allocator(),
        )?;
        let shapes = extract_shapes(graph, overlay_rule, self.options, &mut buffer);
        self.boolean_buffer = Some(buffer);
        shapes
    }

    // The contours round the region of the arranged edges, written into the output, which is empty at
    // first. The buffer is there afterwards.
    fn extract_into<B: Allocator>(
        &mut self,
        overlay_rule: OverlayRule,
        fill_rule: FillRule,
        output: &mut FlatContoursBuffer<I, B>,
    ) -> Result<(), AllocError>
        requires usable { self.old.failed ≡ false }
        requires ascending { IsAscending self.old.edges }
        requires settled { IsSettled self.old.edges }
        requires no_points { output.old.points.items ≡ [] }
        requires no_ranges { output.old.ranges.items ≡ [] }
        ensures result { OnOk result (IsContoursResult
            (asked I.Wide.width I.WideUInt.natural fill_rule overlay_rule self.old.options)
            self.old.edges (paths_in I.whole output.new.points.items output.new.ranges.items)) }
        ensures packed { OnOk result (IsPacked output.new.points.items output.new.ranges.items) }
        ensures no_points { OnErr result (output.new.points.items ≡ []) }
        ensures no_ranges { OnErr result (output.new.ranges.items ≡ []) }
        ensures kept { self.new ≡ record self.old { boolean_buffer = self.new.boolean_buffer } }
        ensures buffer { OnOk result (self.new.boolean_buffer ≡ Some tt) }
    {
        let graph = self.graph_filled_by(fill_rule)?;
        let mut buffer = BooleanExtractionBuffer::taken_from(
            &mut self.boolean_buffer,
            graph.allocator(),
        )?;
        let written = extract_contours(&graph, overlay_rule, self.options, &mut buffer, output);
        self.boolean_buffer = Some(buffer);
        written
    }

    // The graph of the arranged edges, whose counts are balanced: closed contours alone were added.
    fn graph_filled_by(
        &self,
        fill_rule: FillRule,
    ) -> Result<Graph<I, CountWithData<()>, A>, AllocError>
        requires usable { self.now.failed ≡ false }
        requires ascending { IsAscending self.now.edges }
        requires settled { IsSettled self.now.edges }
        ensures edges { IfOk result (λ g. graph_edges g ≡ self.now.edges) }
        ensures rule { IfOk result (λ g. g.fill_rule ≡ fill_rule) }
    {
        self.core.content().graph_of_balanced(fill_rule)
    }
}
