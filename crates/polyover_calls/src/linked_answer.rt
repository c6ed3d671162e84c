//! Shapes and the links between them as arrays, and these put into arrays of a caller.

ghost use Rattle.std.specs.Prelude.{◌≡◌, map, IfOk, IsOkUnless};
ghost use Rattle.overlay_geom.specs.Flat.{shapes_in};
ghost use Rattle.overlay_geom.specs.FlatShapes.{AreShapesPacked};
ghost use Rattle.polyover_calls.specs.Linked.{link_of, ArePutLinked, flat_linked, linked_room};
ghost use Rattle.polyover_calls.specs.Written.{AreFlattened, flat_shapes};

use crate::answer::{Answer, widened};
use crate::counts::Counts;
use crate::flatten::{coordinates_of, ends_of};
use crate::links::{Link, links_of};
use crate::narrowed::ArrayInt;
use crate::status::Status;
use crate::write::write_over;
use i_overlay::hierarchy::FlatShapeHierarchy;
use overlay_geom::number::IntNumber;
use std::alloc::Global;

/// Shapes as arrays, and the links between them.
#[derive(Drop)]
pub struct LinkedAnswer<I> {
    pub(crate) shapes: Answer<I>,
    pub(crate) links: Vec<Link, Global>,
}

/// The shapes and links of the hierarchy, whose shapes stand one behind the other. The only refusal is `Memory`.
pub fn flattened_hierarchy<I: IntNumber>(
    alloc: Global,
    hierarchy: &FlatShapeHierarchy<I, Global>,
) -> Result<LinkedAnswer<I>, Status>
    requires { AreShapesPacked hierarchy.now.shapes.points.items hierarchy.now.shapes.contour_ranges.items
        hierarchy.now.shapes.shape_ranges.items }
    ensures flattened { IfOk result (λ a. AreFlattened I.whole
        (shapes_in I.whole hierarchy.now.shapes.points.items hierarchy.now.shapes.contour_ranges.items
        hierarchy.now.shapes.shape_ranges.items)
        (flat_shapes a.shapes.coordinates.items a.shapes.contour_ends.items a.shapes.shape_ends.items)) }
    ensures links { IfOk result (λ a. a.links.items ≡ map link_of hierarchy.now.links.items) }
    ensures only { IsOkUnless result Status.Memory }
{
    let coordinates = coordinates_of(alloc, &hierarchy.shapes.points)?;
    let contour_ends = ends_of(alloc, &hierarchy.shapes.contour_ranges)?;
    let shape_ends = ends_of(alloc, &hierarchy.shapes.shape_ranges)?;
    let links = links_of(alloc, &hierarchy.links)?;
    let shapes = Answer {
        coordinates,
        contour_ends,
        shape_ends,
    };
    Ok(LinkedAnswer { shapes, links })
}

/// Returns the answer at 32 bits in this type. The only refusal is `Memory`.
pub(crate) fn widened_linked<I: ArrayInt>(
    alloc: Global,
    answer: LinkedAnswer<i32>,
) -> Result<LinkedAnswer<I>, Status>
    ensures coordinates { IfOk result
        (λ a. map I.whole a.shapes.coordinates.items ≡ answer.shapes.coordinates.items) }
    ensures contour_ends { IfOk result (λ a. a.shapes.contour_ends.items ≡ answer.shapes.contour_ends.items) }
    ensures shape_ends { IfOk result (λ a. a.shapes.shape_ends.items ≡ answer.shapes.shape_ends.items) }
    ensures links { IfOk result (λ a. a.links.items ≡ answer.links.items) }
    ensures only { IsOkUnless result Status.Memory }
{
    let shapes = widened(alloc, answer.shapes)?;
    Ok(LinkedAnswer {
        shapes,
        links: answer.links,
    })
}

/// Puts the answer into the arrays, and its counts: `Done`; or `TooSmall`, and the arrays stay as they are.
pub(crate) fn put_linked<I: IntNumber>(
    answer: &LinkedAnswer<I>,
    coordinates: &mut [I],
    contour_ends: &mut [usize],
    shape_ends: &mut [usize],
    links: &mut [Link],
    counts: &mut Counts,
    link_count: &mut usize,
) -> Status
    ensures { ArePutLinked
        (flat_linked answer.now.shapes.coordinates.items answer.now.shapes.contour_ends.items
        answer.now.shapes.shape_ends.items answer.now.links.items)
        (linked_room coordinates.old contour_ends.old shape_ends.old links.old counts.old link_count.old)
        (linked_room coordinates.new contour_ends.new shape_ends.new links.new counts.new link_count.new)
        result }
{
    let shapes = &answer.shapes;
    *counts = Counts {
        coordinates: shapes.coordinates.len(),
        contours: shapes.contour_ends.len(),
        shapes: shapes.shape_ends.len(),
    };
    *link_count = answer.links.len();
    if counts.coordinates > coordinates.len()
        || counts.contours > contour_ends.len()
        || counts.shapes > shape_ends.len()
        || *link_count > links.len()
    {
        return Status::TooSmall;
    }
    write_over(coordinates, &shapes.coordinates);
    write_over(contour_ends, &shapes.contour_ends);
    write_over(shape_ends, &shapes.shape_ends);
    write_over(links, &answer.links);
    Status::Done
}
