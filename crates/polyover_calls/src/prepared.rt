//! Prepared shapes as C has them. It hands them back as they are, and looks at none of their numbers.

ghost use Rattle.std.specs.Prelude.{◌≡◌};
ghost use Rattle.polyover_calls.specs.Prepared.{block_of_32, block_of_64, edge_of_32, edge_of_64};
ghost use Rattle.polyover_calls.specs.Prepared.{parts_at_32, parts_at_64, parts_of};
ghost use Rattle.polyover_calls.specs.Statuses.{code_of};

use crate::prepare::{HeldParts, Preparation};
use overlay_geom::edge::IntEdge;
use overlay_geom::point::IntPoint;
use overlay_relate::blocks::Block;
use overlay_relate::form::FormOf;

/// An edge of 64-bit coordinates.
#[repr(C)]
#[derive(Clone, Copy)]
pub struct Edge64 {
    /// The x-coordinate of the smaller end.
    pub a_x: i64,
    /// Its y-coordinate.
    pub a_y: i64,
    /// The x-coordinate of the larger end.
    pub b_x: i64,
    /// Its y-coordinate.
    pub b_y: i64,
}

/// A block of edges of 64-bit coordinates.
#[repr(C)]
#[derive(Clone, Copy)]
pub struct Block64 {
    /// The place of the first edge.
    pub start: usize,
    /// The place after the last edge.
    pub end: usize,
    /// No edge reaches further left.
    pub left: i64,
    /// No edge reaches further right.
    pub right: i64,
    /// No edge reaches further down.
    pub bottom: i64,
}

/// A prepared shape of 64-bit coordinates. Each array with items lies in a block of its own, which C frees.
#[repr(C)]
#[derive(Clone, Copy)]
pub struct Prepared64<'a> {
    /// The edges of the boundary, by their smaller ends.
    pub edges: &'a [Edge64],
    /// Blocks of 64 of them.
    pub blocks: &'a [Block64],
    /// Blocks of 4096 of them.
    pub groups: &'a [Block64],
}

/// An edge of 32-bit coordinates.
#[repr(C)]
#[derive(Clone, Copy)]
pub struct Edge32 {
    /// The x-coordinate of the smaller end.
    pub a_x: i32,
    /// Its y-coordinate.
    pub a_y: i32,
    /// The x-coordinate of the larger end.
    pub b_x: i32,
    /// Its y-coordinate.
    pub b_y: i32,
}

/// A block of edges of 32-bit coordinates.
#[repr(C)]
#[derive(Clone, Copy)]
pub struct Block32 {
    /// The place of the first edge.
    pub start: usize,
    /// The place after the last edge.
    pub end: usize,
    /// No edge reaches further left.
    pub left: i32,
    /// No edge reaches further right.
    pub right: i32,
    /// No edge reaches further down.
    pub bottom: i32,
}

/// A prepared shape of 32-bit coordinates.
#[repr(C)]
#[derive(Clone, Copy)]
pub struct Prepared32<'a> {
    /// The edges of the boundary, by their smaller ends.
    pub edges: &'a [Edge32],
    /// Blocks of 64 of them.
    pub blocks: &'a [Block32],
    /// Blocks of 4096 of them.
    pub groups: &'a [Block32],
}

impl<'a> Prepared64<'a> {
    /// Gives C the parts, and returns the code of the status.
    pub fn give(&mut self, made: &Preparation<'a, Edge64, Block64>) -> u32
        ensures parts { parts_at_64 self.new ≡ parts_of (λ z. z) edge_of_64 block_of_64 made.now.parts }
        ensures code { result ≡ code_of made.now.status }
    {
        let parts = made.parts;
        *self = Prepared64 {
            edges: parts.edges,
            blocks: parts.blocks,
            groups: parts.groups,
        };
        made.status.code()
    }

    /// Returns the parts.
    pub fn parts(&self) -> HeldParts<'a, Edge64, Block64>
        ensures edges { result.edges.now ≡ self.now.edges.now }
        ensures blocks { result.blocks.now ≡ self.now.blocks.now }
        ensures groups { result.groups.now ≡ self.now.groups.now }
    {
        HeldParts {
            edges: self.edges,
            blocks: self.blocks,
            groups: self.groups,
        }
    }
}

impl<'a> Prepared32<'a> {
    /// Gives C the parts, and returns the code of the status.
    pub fn give(&mut self, made: &Preparation<'a, Edge32, Block32>) -> u32
        ensures parts { parts_at_32 self.new ≡ parts_of (λ z. z) edge_of_32 block_of_32 made.now.parts }
        ensures code { result ≡ code_of made.now.status }
    {
        let parts = made.parts;
        *self = Prepared32 {
            edges: parts.edges,
            blocks: parts.blocks,
            groups: parts.groups,
        };
        made.status.code()
    }

    /// Returns the parts.
    pub fn parts(&self) -> HeldParts<'a, Edge32, Block32>
        ensures edges { result.edges.now ≡ self.now.edges.now }
        ensures blocks { result.blocks.now ≡ self.now.blocks.now }
        ensures groups { result.groups.now ≡ self.now.groups.now }
    {
        HeldParts {
            edges: self.edges,
            blocks: self.blocks,
            groups: self.groups,
        }
    }
}

impl FormOf<IntEdge<i64>> for Edge64 {
    ghost meant = { edge_of_64 };

    /// Returns the edge as C has it.
    fn form(value: IntEdge<i64>) -> Edge64 {
        Edge64 {
            a_x: value.a.x,
            a_y: value.a.y,
            b_x: value.b.x,
            b_y: value.b.y,
        }
    }

    /// Returns the edge.
    fn value(self) -> IntEdge<i64> {
        IntEdge {
            a: IntPoint {
                x: self.a_x,
                y: self.a_y,
            },
            b: IntPoint {
                x: self.b_x,
                y: self.b_y,
            },
        }
    }
}

impl FormOf<Block<i64>> for Block64 {
    ghost meant = { block_of_64 };

    /// Returns the block as C has it.
    fn form(value: Block<i64>) -> Block64 {
        Block64 {
            start: value.start,
            end: value.end,
            left: value.left,
            right: value.right,
            bottom: value.bottom,
        }
    }

    /// Returns the block.
    fn value(self) -> Block<i64> {
        Block {
            start: self.start,
            end: self.end,
            left: self.left,
            right: self.right,
            bottom: self.bottom,
        }
    }
}

impl FormOf<IntEdge<i32>> for Edge32 {
    ghost meant = { edge_of_32 };

    /// Returns the edge as C has it.
    fn form(value: IntEdge<i32>) -> Edge32 {
        Edge32 {
            a_x: value.a.x,
            a_y: value.a.y,
            b_x: value.b.x,
            b_y: value.b.y,
        }
    }

    /// Returns the edge.
    fn value(self) -> IntEdge<i32> {
        IntEdge {
            a: IntPoint {
                x: self.a_x,
                y: self.a_y,
            },
            b: IntPoint {
                x: self.b_x,
                y: self.b_y,
            },
        }
    }
}

impl FormOf<Block<i32>> for Block32 {
    ghost meant = { block_of_32 };

    /// Returns the block as C has it.
    fn form(value: Block<i32>) -> Block32 {
        Block32 {
            start: value.start,
            end: value.end,
            left: value.left,
            right: value.right,
            bottom: value.bottom,
        }
    }

    /// Returns the block.
    fn value(self) -> Block<i32> {
        Block {
            start: self.start,
            end: self.end,
            left: self.left,
            right: self.right,
            bottom: self.bottom,
        }
    }
}
