//! The parts of a prepared shape, in whatever form they are kept.

ghost use Rattle.std.specs.Prelude.{◌≡◌, map};
ghost use Rattle.overlay_geom.specs.Plane.{in_plane};
ghost use Rattle.overlay_geom.specs.Points.{plain_point};
ghost use Rattle.overlay_geom.specs.Resolved.{plain_edges};
ghost use Rattle.overlay_relate.specs.Blocks.{AreClear, AreBlocked, plain_blocks};
ghost use Rattle.overlay_relate.specs.Bounded.{LiesSo};
ghost use Rattle.overlay_relate.specs.Locations.{IsLocatedBy};

use crate::blocks::{Block, passed};
use crate::by_edge::location_by;
use crate::form::FormOf;
use crate::location::PointLocation;
use crate::prepared::PreparedShape;
use overlay_geom::edge::IntEdge;
use overlay_geom::integer::OverlayInt;
use overlay_geom::point::IntPoint;
use std::alloc::Allocator;

/// Number of edges in a block.
pub(crate) const BLOCK: usize = 64;

/// Number of edges in a group.
pub(crate) const GROUP: usize = 4096;

/// What a prepared shape keeps.
#[derive(Drop)]
pub struct PreparedParts<I, A: Allocator> {
    /// The edges of the boundary, by their smaller ends.
    pub edges: Vec<IntEdge<I>, A>,
    /// Blocks of 64 of them.
    pub blocks: Vec<Block<I>, A>,
    /// Blocks of 4096 of them.
    pub groups: Vec<Block<I>, A>,
}

impl<I: OverlayInt, A: Allocator> PreparedShape<I, A> {
    /// Returns the parts of the shape. `locate_in` tells of them where points lie.
    pub fn into_parts(self) -> PreparedParts<I, A>
        ensures edges { plain_edges I.whole result.edges.items ≡ self }
        ensures blocked { AreBlocked I.limit (plain_edges I.whole result.edges.items)
            (plain_blocks I.whole result.blocks.items) (plain_blocks I.whole result.groups.items) }
    {
        let PreparedShape {
            edges,
            blocks,
            groups,
        } = self;
        PreparedParts {
            edges,
            blocks,
            groups,
        }
    }
}

/// Returns where the point lies in the shape with these parts, as `PreparedShape::locate` does. Without edges it is
/// outside. No memory is taken.
pub fn locate_in<I: OverlayInt, E: FormOf<IntEdge<I>>, B: FormOf<Block<I>>>(
    edges: &[E],
    blocks: &[B],
    groups: &[B],
    point: IntPoint<I>,
) -> PointLocation
    requires { AreBlocked I.limit (plain_edges I.whole (map E.meant edges.now))
        (plain_blocks I.whole (map B.meant blocks.now)) (plain_blocks I.whole (map B.meant groups.now)) }
    ensures located { LiesSo (plain_edges I.whole (map E.meant edges.now))
        (in_plane (plain_point I.whole point)) result }
    ensures by_edges { IsLocatedBy (plain_edges I.whole (map E.meant edges.now))
        (in_plane (plain_point I.whole point)) result }
{
    let mut is_inside = false;
    let mut at = 0;
    while at < edges.len() {
        let next = passed_from(blocks, groups, at, point);
        if at < next {
            at = next;
        } else {
            let edge = edges[at].value();
            match location_by(&edge, point) {
                PointLocation::Boundary => return PointLocation::Boundary,
                PointLocation::Inside => is_inside = !is_inside,
                PointLocation::Outside => {}
            }
            at += 1;
        }
    }
    if is_inside {
        PointLocation::Inside
    } else {
        PointLocation::Outside
    }
}

// The place up to which blocks tell that the edges from a place on have the point neither on them nor above them.
fn passed_from<I: OverlayInt, B: FormOf<Block<I>>>(
    blocks: &[B],
    groups: &[B],
    at: usize,
    point: IntPoint<I>,
) -> usize
    ensures { (es : _) → AreBlocked I.limit es (plain_blocks I.whole (map B.meant blocks.now))
        (plain_blocks I.whole (map B.meant groups.now)) → AreClear es (plain_point I.whole point) at result }
{
    let next = passed(groups, GROUP, at, point);
    if at < next {
        next
    } else {
        passed(blocks, BLOCK, at, point)
    }
}
