//! Contours placed in the shapes to which they are bound, and the placed contours of an overlay.

ghost use Rattle.std.specs.Prelude.{All, IfOk};
ghost use Rattle.overlay_plane.specs.Balance.{HasBalancedCounts};
ghost use Rattle.overlay_plane.specs.BoundContours.{walks_in, AreShapesFound};
ghost use Rattle.overlay_plane.specs.KeptContours.{CanBeBound};
ghost use Rattle.overlay_plane.specs.PlacedContours.{CanBePlaced};
ghost use Rattle.overlay_graph.specs.Graphs.{graph_edges};
ghost use Rattle.overlay_walk.specs.GroupedContours.{plain_contours};
ghost use Rattle.overlay_walk.specs.Steps.{filled_hand, IsLong};
ghost use Rattle.overlay_extract.specs.Placed.{ArePlacedSomehow, ArePlacedResults};
ghost use Rattle.overlay_extract.specs.Places.{place_lists};
ghost use Rattle.overlay_walk.specs.Asked.{asked};

use crate::binding::bind::bind_from;
use crate::binding::places::{ShapePlaces, shape_places};
use crate::limits::TREE_FROM_PARENTS;
use overlay_geom::number::IntNumber;
use overlay_geom::options::{ContourDirection, IntOverlayOptions};
use overlay_geom::overlay_rule::OverlayRule;
use overlay_walk::as_graph::AsGraph;
use overlay_walk::buffer::BooleanExtractionBuffer;
use overlay_walk::contour::Contour;
use overlay_walk::kept_contours::kept_contours;
use std::alloc::{AllocError, Allocator};

/// Contours and their places in shapes.
#[derive(Drop)]
pub struct PlacedContours<I, A: Allocator> {
    /// The contours, in the order in which they are found.
    pub contours: Vec<Contour<I, A>, A>,
    /// For each shape the places of its contours among all contours.
    pub places: Vec<ShapePlaces<A>, A>,
}

/// Returns the contours round the region where the rules hold, and their places in the shapes found for them. It drops
/// the graph, or the reference to it, before it looks for shapes.
pub fn placed_contours<I: IntNumber, A: Allocator + Clone, G: AsGraph<I, A> + Drop>(
    graph: G,
    overlay_rule: OverlayRule,
    options: IntOverlayOptions<I::WideUInt>,
    buffer: &mut BooleanExtractionBuffer<I, A>,
) -> Result<PlacedContours<I, A>, AllocError>
    requires { HasBalancedCounts (graph_edges (G.graph graph)) }
    ensures placed { IfOk result (λ p. ArePlacedResults
        (asked I.Wide.width I.WideUInt.natural (G.graph graph).fill_rule overlay_rule options)
        (graph_edges (G.graph graph)) (plain_contours I.whole p.contours.items) (place_lists p.places.items)) }
    ensures long { IfOk result
        (λ p. All (All (IsLong I.limit)) (walks_in (plain_contours I.whole p.contours.items))) }
{
    let alloc = graph.allocator().clone()?;
    let contours = kept_contours(graph, overlay_rule, options, buffer)?;
    let places = bound_places(alloc, &contours, options.output_direction)?;
    Ok(PlacedContours { contours, places })
}

/// Returns the places of the contours in the shapes found for them.
pub fn bound_places<I: IntNumber, A: Allocator + Clone>(
    alloc: A,
    contours: &[Contour<I, A>],
    direction: ContourDirection,
) -> Result<Vec<ShapePlaces<A>, A>, AllocError>
    requires long { All (All (IsLong I.limit)) (walks_in (plain_contours I.whole contours.now)) }
    requires bindable { CanBeBound (filled_hand direction) (walks_in (plain_contours I.whole contours.now)) }
    requires placeable { (shapes : _)
        → AreShapesFound (filled_hand direction) (plain_contours I.whole contours.now) shapes
        → CanBePlaced (plain_contours I.whole contours.now) shapes }
    ensures placed { IfOk result (λ v.
        ArePlacedSomehow (filled_hand direction) (plain_contours I.whole contours.now) (place_lists v.items)) }
{
    let found = bind_from(alloc.clone()?, contours, direction, TREE_FROM_PARENTS)?;
    shape_places(alloc, contours, &found)
}
