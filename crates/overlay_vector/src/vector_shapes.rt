//! The contours round the region where rules hold, as edges with filled sides and data, bound to shapes.

ghost use Rattle.std.specs.Prelude.{IfOk};
ghost use Rattle.overlay_plane.specs.Balance.{HasBalancedCounts};
ghost use Rattle.overlay_graph.specs.Graphs.{graph_edges};
ghost use Rattle.overlay_parts.specs.Stores.{IsStoreReached};
ghost use Rattle.overlay_extract.specs.Results.{asked};
ghost use Rattle.overlay_vector.specs.VectorShapes.{plain_vector_shapes, AreVectorShapes};

use crate::path::DataVectorShape;
use crate::vector_contours::assembled;
use overlay_extract::binding::placed::bound_places;
use overlay_geom::number::IntNumber;
use overlay_geom::options::IntOverlayOptions;
use overlay_geom::overlay_rule::OverlayRule;
use overlay_graph::graph::Graph;
use overlay_order::data::{CountWithData, OverlayEdgeData};
use overlay_walk::buffer::BooleanExtractionBuffer;
use overlay_walk::kept_contours::kept_contours;
use std::alloc::{AllocError, Allocator};

/// The shapes round the region where the rules hold, that of the graph and the overlay rule, of the
/// windings that the graph's edges make: the outline of each, and then its holes, both in the order in
/// which they are found. The contours are cut without groups, whatever `options.ogc` says; those below the
/// minimum area are left out.
///
/// Each contour is given by its edges on the way along it. Each edge has the sides that are filled, as they are seen on
/// this way. It has the data of the arrangement's edge, `reversed` where it is walked from its larger end. Unless
/// `options.preserve_output_collinear`, an edge that goes straight on from the one before it, with equal filled sides
/// and equal data, is joined with it. So is the first one with the last. The joined edge has the data of the first of
/// them. The contours may begin anywhere.
///
/// The graph's counts are balanced. The buffer lends its room. The store is handed to `reversed`.
#[tactic(auto, using(overlay_parts::proofs::ReachedStores::never_written))]
pub fn vector_shapes<I: IntNumber, D: OverlayEdgeData, A: Allocator + Clone>(
    graph: &Graph<I, CountWithData<D>, A>,
    overlay_rule: OverlayRule,
    options: IntOverlayOptions<I::WideUInt>,
    buffer: &mut BooleanExtractionBuffer<I, A>,
    store: &mut D::Store,
) -> Result<Vec<DataVectorShape<I, D, A>, A>, AllocError>
    requires { HasBalancedCounts (graph_edges graph.now) }
    ensures shapes { IfOk result (λ v. AreVectorShapes D.reverses D.eq
        (asked I.Wide.width I.WideUInt.natural graph.now.fill_rule overlay_rule options)
        graph.now.edges (plain_vector_shapes I.whole v.items)) }
    ensures store { IsStoreReached D.writes store.old store.new }
{
    let without_groups = IntOverlayOptions {
        ogc: false,
        ..options
    };
    let contours = kept_contours(graph, overlay_rule, without_groups, buffer)?;
    let alloc = graph.allocator().clone()?;
    let places = bound_places(alloc, &contours, options.output_direction)?;
    assembled(
        graph,
        &contours,
        &places,
        options.preserve_output_collinear,
        store,
    )
}
