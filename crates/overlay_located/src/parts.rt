//! The parts of a shape as it is given.

ghost use Rattle.std.specs.Prelude.{◌≡◌};
ghost use Rattle.overlay_order.specs.Content.{plain_edges, IsContent};
ghost use Rattle.overlay_order.specs.Counts.{boolean_counts};
ghost use Rattle.overlay_relate.specs.Blocks.{plain_blocks};
ghost use Rattle.overlay_sectors.specs.Blocks.{AreBlocked};

use crate::exact_shape::ExactShape;
use overlay_geom::integer::OverlayInt;
use overlay_order::count::ShapeCountBoolean;
use overlay_order::edge::CountedEdge;
use overlay_relate::blocks::Block;
use std::alloc::Allocator;

/// What a shape keeps beside its fill rule. `located::locate` tells of it where points lie.
#[derive(Clone, Copy)]
pub struct ExactParts<'a, I> {
    /// The edges of the contours.
    pub edges: &'a [CountedEdge<I, ShapeCountBoolean>],
    /// Blocks of 64 of them.
    pub blocks: &'a [Block<I>],
    /// Blocks of 4096 of them.
    pub groups: &'a [Block<I>],
}

impl<I: OverlayInt, A: Allocator> ExactShape<I, A> {
    /// Returns the parts of the shape.
    pub fn parts(&self) -> ExactParts<'_, I>
        ensures edges { plain_edges I.whole boolean_counts result.edges.now ≡ self.now.edges }
        ensures content { IsContent I.limit (plain_edges I.whole boolean_counts result.edges.now) }
        ensures blocked { AreBlocked (plain_edges I.whole boolean_counts result.edges.now)
            (plain_blocks I.whole result.blocks.now) (plain_blocks I.whole result.groups.now) }
    {
        ExactParts {
            edges: self.core.content().edges(),
            blocks: &self.blocks,
            groups: &self.groups,
        }
    }
}
