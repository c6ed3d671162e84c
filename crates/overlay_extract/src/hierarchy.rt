//! Shapes in a flat buffer, and links from holes to the shapes in them.

ghost use Rattle.std.specs.Prelude.{◌≡◌, [], map, IfOk, IsOk, IsOkUnless};
ghost use Rattle.overlay_geom.specs.Flat.{shapes_in};
ghost use Rattle.overlay_geom.specs.FlatShapes.{AreShapesPacked};
ghost use Rattle.overlay_plane.specs.Balance.{HasBalancedCounts};
ghost use Rattle.overlay_graph.specs.Graphs.{graph_edges};
ghost use Rattle.overlay_extract.specs.ChildLinks.{plain_link};
ghost use Rattle.overlay_extract.specs.PlacedResults.{IsHierarchy};
ghost use Rattle.overlay_extract.specs.Results.{asked};

use crate::assemble::assembled;
use crate::binding::placed::placed_contours;
use crate::child_link::ChildLink;
use crate::in_shapes::in_shapes;
use crate::limits::TREE_FROM_PARENTS;
use crate::links::link_from;
use overlay_geom::error::OverlayError;
use overlay_geom::flat::shapes::FlatShapesBuffer;
use overlay_geom::number::IntNumber;
use overlay_geom::options::IntOverlayOptions;
use overlay_geom::overlay_rule::OverlayRule;
use overlay_graph::graph::Graph;
use overlay_order::count::EdgeCount;
use overlay_walk::buffer::BooleanExtractionBuffer;
use std::alloc::{AllocError, Allocator};

/// Shapes in a flat buffer, and links to the shapes that lie in their holes.
#[derive(Drop)]
#[derive_where(Debug, PartialEq, Eq; I)]
pub struct FlatShapeHierarchy<I, A: Allocator> {
    /// The shapes.
    pub shapes: FlatShapesBuffer<I, A>,
    /// A link for each shape that lies in a hole of another shape, in order.
    pub links: Vec<ChildLink, A>,
}

impl<I: IntNumber, A: Allocator + Clone> FlatShapeHierarchy<I, A> {
    /// Makes a hierarchy without shapes and links, which will take its memory from the allocator. It takes none yet. It
    /// is refused only where a copy of the allocator is refused.
    pub fn default(alloc: A) -> Result<Self, OverlayError>
        ensures points { IfOk result (λ h. h.shapes.points.items ≡ []) }
        ensures contour_ranges { IfOk result (λ h. h.shapes.contour_ranges.items ≡ []) }
        ensures shape_ranges { IfOk result (λ h. h.shapes.shape_ranges.items ≡ []) }
        ensures links { IfOk result (λ h. h.links.items ≡ []) }
        ensures succeeds { A.is_infallible alloc → IsOk result }
        ensures only { IsOkUnless result OverlayError.Memory }
    {
        let links = Vec::new(alloc.clone()?);
        let shapes = FlatShapesBuffer::default(alloc)?;
        Ok(FlatShapeHierarchy { shapes, links })
    }

    /// Returns a copy with the same points, ranges and links. The only refusal is `Memory`.
    pub fn clone(&self) -> Result<Self, OverlayError>
        ensures points { IfOk result (λ h. h.shapes.points.items ≡ self.now.shapes.points.items) }
        ensures contour_ranges { IfOk result
            (λ h. h.shapes.contour_ranges.items ≡ self.now.shapes.contour_ranges.items) }
        ensures shape_ranges { IfOk result
            (λ h. h.shapes.shape_ranges.items ≡ self.now.shapes.shape_ranges.items) }
        ensures links { IfOk result (λ h. h.links.items ≡ self.now.links.items) }
        ensures only { IsOkUnless result OverlayError.Memory }
    {
        let shapes = self.shapes.clone()?;
        let mut links = Vec::new(self.links.allocator().clone()?);
        links.extend_from_slice(&self.links)?;
        Ok(FlatShapeHierarchy { shapes, links })
    }
}

/// Returns the shapes that [`extract_shapes`](crate::extract::extract_shapes) gives, packed without gaps, and the links
/// to the shapes that lie in their holes.
///
/// Let e be the next filled-below edge below the leftmost lowest point of a shape's outline. The shape lies in a hole
/// if e belongs to the hole, or to the outline of another shape in it. Collinear points count here. The buffer lends
/// its room.
pub fn extract_shape_hierarchy<I: IntNumber, C: EdgeCount, A: Allocator + Clone>(
    graph: &Graph<I, C, A>,
    overlay_rule: OverlayRule,
    options: IntOverlayOptions<I::WideUInt>,
    buffer: &mut BooleanExtractionBuffer<I, A>,
) -> Result<FlatShapeHierarchy<I, A>, AllocError>
    requires { HasBalancedCounts (graph_edges graph.now) }
    ensures hierarchy { IfOk result (λ h. IsHierarchy
        (asked I.Wide.width I.WideUInt.natural graph.now.fill_rule overlay_rule options) (graph_edges graph.now)
        (shapes_in I.whole h.shapes.points.items h.shapes.contour_ranges.items h.shapes.shape_ranges.items)
        (map plain_link h.links.items)) }
    ensures packed { IfOk result
        (λ h. AreShapesPacked h.shapes.points.items h.shapes.contour_ranges.items h.shapes.shape_ranges.items) }
{
    let placed = placed_contours(graph, overlay_rule, options, buffer)?;
    let alloc = graph.allocator();
    let keeps_points = options.preserve_output_collinear;
    let shapes = assembled(
        alloc.clone()?,
        &placed.contours,
        &placed.places,
        keeps_points,
    )?;
    let ordered = in_shapes(alloc.clone()?, &placed.contours, &placed.places)?;
    let direction = options.output_direction;
    let links = link_from(alloc.clone()?, &ordered, direction, TREE_FROM_PARENTS)?;
    let Ok(shapes) = FlatShapesBuffer::from_shapes(alloc.clone()?, &shapes) else {
        return Err(AllocError);
    };
    Ok(FlatShapeHierarchy { shapes, links })
}
