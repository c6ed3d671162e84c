//! Shapes that are asked again and again where points lie.

use crate::blocks::Block;
use overlay_geom::edge::IntEdge;
use overlay_geom::integer::OverlayInt;
use std::alloc::Allocator;
use std::marker::Model;

mod asked;
mod made;
pub mod parts;

/// A shape under a fill rule, made from any contours, that is asked again and again where points lie: on its boundary,
/// inside or outside.
///
/// It keeps the boundary alone: the edges of the arrangement with exactly one filled side, and blocks of 64 and
/// of 4096 of them. A question passes over blocks that lie right of the point, left of it or above it, and takes no
/// memory.
#[derive(Drop)]
pub struct PreparedShape<I: OverlayInt, A: Allocator> {
    // the edges of the boundary, by their smaller ends
    edges: Vec<IntEdge<I>, A>,
    // blocks of 64 of them
    blocks: Vec<Block<I>, A>,
    // and of 4096
    groups: Vec<Block<I>, A>,
}

impl<I: OverlayInt, A: Allocator> Model for PreparedShape<I, A> {
    ghost use Rattle.std.specs.Prelude.{List};
    ghost use Rattle.overlay_geom.specs.Plane.{Edge};
    ghost use Rattle.overlay_geom.specs.Resolved.{plain_edges};
    ghost use Rattle.overlay_relate.specs.Blocks.{AreBlocked, plain_blocks};

    ghost Value = { List Edge };

    ghost view = { λ s. plain_edges I.whole s.edges.items };

    ghost invariant = { λ s. AreBlocked I.limit (plain_edges I.whole s.edges.items)
        (plain_blocks I.whole s.blocks.items) (plain_blocks I.whole s.groups.items) };
}
