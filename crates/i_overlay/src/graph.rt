//! Views of an arrangement: made once, and asked often.

ghost use Rattle.std.specs.Prelude.{◌≡◌, [], false, map, IfOk, OnOk, OnErr, IsOkUnless};
ghost use Rattle.overlay_geom.specs.Flat.{paths_in, shapes_in};
ghost use Rattle.overlay_geom.specs.FlatShapes.{AreShapesPacked};
ghost use Rattle.overlay_geom.specs.Packed.{IsPacked};
ghost use Rattle.overlay_geom.specs.Paths.{plain_shapes};
ghost use Rattle.overlay_order.specs.Vectors.{plain_vector, vector_of};
ghost use Rattle.overlay_parts.specs.Stores.{IsStoreReached};
ghost use Rattle.overlay_extract.specs.ChildLinks.{plain_link};
ghost use Rattle.overlay_extract.specs.PlacedResults.{IsHierarchy};
ghost use Rattle.overlay_extract.specs.Results.{IsResult, IsContoursResult};
ghost use Rattle.overlay_vector.specs.DataVectors.{graph_vectors, plain_data_vectors};
ghost use Rattle.overlay_vector.specs.VectorShapes.{plain_vector_shapes, AreVectorShapes};
ghost use Rattle.i_overlay.specs.Views.{asked_of, viewed_edges};

use crate::viewed_graph::ViewedGraph;
use overlay_extract::extract::{extract_contours, extract_shapes};
use overlay_extract::hierarchy::{FlatShapeHierarchy, extract_shape_hierarchy};
use overlay_geom::error::OverlayError;
use overlay_geom::flat::contours::FlatContoursBuffer;
use overlay_geom::integer::OverlayInt;
use overlay_geom::overlay_rule::OverlayRule;
use overlay_geom::path::IntShapes;
use overlay_order::data::{CountWithData, OverlayEdgeData};
use overlay_order::vector::DataVectorEdge;
use overlay_vector::graph_vectors::graph_vectors;
use overlay_vector::path::DataVectorShape;
use overlay_vector::vector_shapes::vector_shapes;
use overlay_walk::buffer::BooleanExtractionBuffer;
use std::alloc::Allocator;

/// A view of what a builder holds: the edges of its arrangement, with their filled sides under one fill
/// rule. It is made by `Overlay::build_graph_view`, and borrows the builder; it can be asked as often as
/// wanted, for other overlay rules too. An extraction that is refused leaves it as it was.
#[derive(Drop)]
pub struct OverlayGraph<'a, I: OverlayInt, D: OverlayEdgeData, A: Allocator> {
    pub(crate) viewed: &'a ViewedGraph<I, CountWithData<D>, A>,
}

impl<I: OverlayInt, A: Allocator + Clone> OverlayGraph<'_, I, (), A> {
    /// The contours round the region where the overlay rule holds, in shapes. They are those that `Overlay::overlay`
    /// gives by the options that the builder had when the view was made. The buffer lends its room; what it holds
    /// changes no answer. The only refusal is `Memory`.
    pub fn extract_shapes(
        &self,
        overlay_rule: OverlayRule,
        buffer: &mut BooleanExtractionBuffer<I, A>,
    ) -> Result<IntShapes<I, A>, OverlayError>
        ensures result { IfOk result (λ v.
            IsResult (asked_of I.Wide.width I.WideUInt.natural self.now.viewed.now overlay_rule)
            (viewed_edges self.now.viewed.now) (plain_shapes I.whole v.items)) }
        ensures err { IsOkUnless result OverlayError.Memory }
    {
        let options = self.viewed.options();
        Ok(extract_shapes(self.viewed.graph(), overlay_rule, options, buffer)?)
    }

    /// Returns the shapes in one list, and a link for each shape that lies in a hole, as
    /// `Overlay::overlay_hierarchy` does. The buffer lends its room; what it holds changes no answer. The only
    /// refusal is `Memory`.
    pub fn extract_shape_hierarchy(
        &self,
        overlay_rule: OverlayRule,
        buffer: &mut BooleanExtractionBuffer<I, A>,
    ) -> Result<FlatShapeHierarchy<I, A>, OverlayError>
        ensures hierarchy { IfOk result (λ h. IsHierarchy
            (asked_of I.Wide.width I.WideUInt.natural self.now.viewed.now overlay_rule)
            (viewed_edges self.now.viewed.now)
            (shapes_in I.whole h.shapes.points.items h.shapes.contour_ranges.items h.shapes.shape_ranges.items)
            (map plain_link h.links.items)) }
        ensures packed { IfOk result
            (λ h. AreShapesPacked h.shapes.points.items h.shapes.contour_ranges.items h.shapes.shape_ranges.items) }
        ensures err { IsOkUnless result OverlayError.Memory }
    {
        let options = self.viewed.options();
        Ok(extract_shape_hierarchy(self.viewed.graph(), overlay_rule, options, buffer)?)
    }

    /// Writes the contours round the region of the plane where the overlay rule holds into the output, one
    /// behind the other, as `Overlay::overlay_into` does. What the output held is dropped. The buffer lends
    /// its room; what it holds changes no answer. The only refusal is `Memory`, and then the output is empty.
    pub fn extract_contours_into<B: Allocator>(
        &self,
        overlay_rule: OverlayRule,
        buffer: &mut BooleanExtractionBuffer<I, A>,
        output: &mut FlatContoursBuffer<I, B>,
    ) -> Result<(), OverlayError>
        ensures result { OnOk result (IsContoursResult
            (asked_of I.Wide.width I.WideUInt.natural self.now.viewed.now overlay_rule)
            (viewed_edges self.now.viewed.now)
            (paths_in I.whole output.new.points.items output.new.ranges.items)) }
        ensures packed { OnOk result (IsPacked output.new.points.items output.new.ranges.items) }
        ensures no_points { OnErr result (output.new.points.items ≡ []) }
        ensures no_ranges { OnErr result (output.new.ranges.items ≡ []) }
        ensures err { IsOkUnless result OverlayError.Memory }
    {
        let options = self.viewed.options();
        extract_contours(self.viewed.graph(), overlay_rule, options, buffer, output)?;
        Ok(())
    }
}

impl<I: OverlayInt, D: OverlayEdgeData, A: Allocator + Clone> OverlayGraph<'_, I, D, A> {
    /// The contours round the region where the overlay rule holds, cut without `ogc`, as shapes of edges. Each edge has
    /// the sides that the subject and the clip fill, seen on the way along the contour. It has its data, `reversed`
    /// where the contour walks it from its larger end. Unless the builder kept points on one line when the view was
    /// made, neighbours on one line with the same filled sides and equal data are joined to one edge. A store is made
    /// for this call, and dropped after it. The buffer lends its room; what it holds changes no answer. The only
    /// refusal is `Memory`.
    pub fn extract_vector_shapes(
        &self,
        overlay_rule: OverlayRule,
        buffer: &mut BooleanExtractionBuffer<I, A>,
    ) -> Result<Vec<DataVectorShape<I, D, A>, A>, OverlayError>
        ensures shapes { IfOk result (λ v. AreVectorShapes D.reverses D.eq
            (asked_of I.Wide.width I.WideUInt.natural self.now.viewed.now overlay_rule)
            self.now.viewed.now.graph.edges (plain_vector_shapes I.whole v.items)) }
        ensures err { IsOkUnless result OverlayError.Memory }
    {
        self.extract_vector_shapes_with_store(overlay_rule, buffer, &mut D::Store::default())
    }

    /// Returns the shapes of `extract_vector_shapes`, with the caller's store for `reversed`. The only refusal is
    /// `Memory`, and then the store has what was done until then.
    pub fn extract_vector_shapes_with_store(
        &self,
        overlay_rule: OverlayRule,
        buffer: &mut BooleanExtractionBuffer<I, A>,
        store: &mut D::Store,
    ) -> Result<Vec<DataVectorShape<I, D, A>, A>, OverlayError>
        ensures shapes { IfOk result (λ v. AreVectorShapes D.reverses D.eq
            (asked_of I.Wide.width I.WideUInt.natural self.now.viewed.now overlay_rule)
            self.now.viewed.now.graph.edges (plain_vector_shapes I.whole v.items)) }
        ensures store { IsStoreReached D.writes store.old store.new }
        ensures err { IsOkUnless result OverlayError.Memory }
    {
        let options = self.viewed.options();
        Ok(vector_shapes(self.viewed.graph(), overlay_rule, options, buffer, store)?)
    }

    /// Every edge in order, by its smaller and then its larger end, with its filled sides, as
    /// `Overlay::build_separate_vectors` gives them. The only refusal is `Memory`.
    pub fn extract_separate_vectors(&self) -> Result<Vec<DataVectorEdge<I, ()>, A>, OverlayError>
        ensures listed { IfOk result (λ v. map (plain_vector I.whole) v.items
            ≡ map (vector_of self.now.viewed.now.graph.fill_rule (viewed_edges self.now.viewed.now))
            (viewed_edges self.now.viewed.now)) }
        ensures err { IsOkUnless result OverlayError.Memory }
    {
        Ok(self.viewed.graph().separate_vectors()?)
    }

    /// Every edge in order, by its smaller and then its larger end, with its filled sides and its data. The
    /// only refusal is `Memory`.
    pub fn extract_vectors(&self) -> Result<Vec<DataVectorEdge<I, D>, A>, OverlayError>
        ensures listed { IfOk result (λ v. plain_data_vectors I.whole v.items
            ≡ graph_vectors self.now.viewed.now.graph.fill_rule self.now.viewed.now.graph.edges) }
        ensures err { IsOkUnless result OverlayError.Memory }
    {
        self.extract_vectors_with_store(&mut D::Store::default())
    }

    /// Returns the edges of `extract_vectors`, with the store of their data at hand. The store stays as it is:
    /// each edge is seen from its smaller to its larger end, as the graph holds it, so that no data is reversed.
    /// The only refusal is `Memory`.
    pub fn extract_vectors_with_store(
        &self,
        store: &mut D::Store,
    ) -> Result<Vec<DataVectorEdge<I, D>, A>, OverlayError>
        ensures listed { IfOk result (λ v. plain_data_vectors I.whole v.items
            ≡ graph_vectors self.now.viewed.now.graph.fill_rule self.now.viewed.now.graph.edges) }
        ensures untouched { store.new ≡ store.old }
        ensures err { IsOkUnless result OverlayError.Memory }
    {
        let _ = store;
        Ok(graph_vectors(self.viewed.graph())?)
    }
}
