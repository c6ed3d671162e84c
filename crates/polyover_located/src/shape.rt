//! Shapes as they are given, as C has them. It hands them back as they are, and looks at none of their numbers.

ghost use Rattle.std.specs.Prelude.{◌≡◌};
ghost use Rattle.polyover_calls.specs.Prepared.{block_of_32, block_of_64};
ghost use Rattle.polyover_calls.specs.Statuses.{code_of};
ghost use Rattle.polyover_located.specs.Held.{edge_of_32, edge_of_64, parts_at_32, parts_at_64, parts_of};

use crate::prepare::{HeldShape, Preparation};
use overlay_geom::point::IntPoint;
use overlay_order::count::ShapeCountBoolean;
use overlay_order::edge::CountedEdge;
use overlay_relate::form::FormOf;
use overlay_sectors::form::EdgeForm;
use polyover_calls::prepared::{Block32, Block64};

/// An edge of 64-bit coordinates, with counts.
#[repr(C)]
#[derive(Clone, Copy)]
pub struct ExactEdge64 {
    /// The x-coordinate of the smaller end.
    pub a_x: i64,
    /// Its y-coordinate.
    pub a_y: i64,
    /// The x-coordinate of the larger end.
    pub b_x: i64,
    /// Its y-coordinate.
    pub b_y: i64,
    /// How often the contours pass the edge from its smaller to its larger end, minus how often back.
    pub subj: i32,
    /// 0, for a clip.
    pub clip: i32,
}

/// A shape of 64-bit coordinates as it is given. Each array with items lies in a block of its own, which C frees.
#[repr(C)]
#[derive(Clone, Copy)]
pub struct Exact64<'a> {
    /// The edges of the contours.
    pub edges: &'a [ExactEdge64],
    /// Blocks of 64 of them.
    pub blocks: &'a [Block64],
    /// Blocks of 4096 of them.
    pub groups: &'a [Block64],
    /// The number of the fill rule.
    pub fill: u32,
}

/// An edge of 32-bit coordinates, with counts.
#[repr(C)]
#[derive(Clone, Copy)]
pub struct ExactEdge32 {
    /// The x-coordinate of the smaller end.
    pub a_x: i32,
    /// Its y-coordinate.
    pub a_y: i32,
    /// The x-coordinate of the larger end.
    pub b_x: i32,
    /// Its y-coordinate.
    pub b_y: i32,
    /// How often the contours pass the edge from its smaller to its larger end, minus how often back.
    pub subj: i32,
    /// 0, for a clip.
    pub clip: i32,
}

/// A shape of 32-bit coordinates as it is given. Each array with items lies in a block of its own, which C frees.
#[repr(C)]
#[derive(Clone, Copy)]
pub struct Exact32<'a> {
    /// The edges of the contours.
    pub edges: &'a [ExactEdge32],
    /// Blocks of 64 of them.
    pub blocks: &'a [Block32],
    /// Blocks of 4096 of them.
    pub groups: &'a [Block32],
    /// The number of the fill rule.
    pub fill: u32,
}

impl<'a> Exact64<'a> {
    /// Gives C the parts, and returns the code of the status.
    pub fn give(&mut self, made: &Preparation<'a, ExactEdge64, Block64>) -> u32
        ensures parts { parts_at_64 self.new ≡ parts_of (λ z. z) edge_of_64 block_of_64 made.now.shape }
        ensures code { result ≡ code_of made.now.status }
    {
        let shape = made.shape;
        *self = Exact64 {
            edges: shape.edges,
            blocks: shape.blocks,
            groups: shape.groups,
            fill: shape.fill,
        };
        made.status.code()
    }

    /// Returns the parts.
    pub fn held(&self) -> HeldShape<'a, ExactEdge64, Block64>
        ensures edges { result.edges.now ≡ self.now.edges.now }
        ensures blocks { result.blocks.now ≡ self.now.blocks.now }
        ensures groups { result.groups.now ≡ self.now.groups.now }
        ensures fill { result.fill ≡ self.now.fill }
    {
        HeldShape {
            edges: self.edges,
            blocks: self.blocks,
            groups: self.groups,
            fill: self.fill,
        }
    }
}

impl<'a> Exact32<'a> {
    /// Gives C the parts, and returns the code of the status.
    pub fn give(&mut self, made: &Preparation<'a, ExactEdge32, Block32>) -> u32
        ensures parts { parts_at_32 self.new ≡ parts_of (λ z. z) edge_of_32 block_of_32 made.now.shape }
        ensures code { result ≡ code_of made.now.status }
    {
        let shape = made.shape;
        *self = Exact32 {
            edges: shape.edges,
            blocks: shape.blocks,
            groups: shape.groups,
            fill: shape.fill,
        };
        made.status.code()
    }

    /// Returns the parts.
    pub fn held(&self) -> HeldShape<'a, ExactEdge32, Block32>
        ensures edges { result.edges.now ≡ self.now.edges.now }
        ensures blocks { result.blocks.now ≡ self.now.blocks.now }
        ensures groups { result.groups.now ≡ self.now.groups.now }
        ensures fill { result.fill ≡ self.now.fill }
    {
        HeldShape {
            edges: self.edges,
            blocks: self.blocks,
            groups: self.groups,
            fill: self.fill,
        }
    }
}

impl FormOf<CountedEdge<i64, ShapeCountBoolean>> for ExactEdge64 {
    ghost meant = { edge_of_64 };

    /// Returns the edge as C has it.
    fn form(value: CountedEdge<i64, ShapeCountBoolean>) -> ExactEdge64 {
        ExactEdge64 {
            a_x: value.a.x,
            a_y: value.a.y,
            b_x: value.b.x,
            b_y: value.b.y,
            subj: value.count.subj,
            clip: value.count.clip,
        }
    }

    /// Returns the edge.
    fn value(self) -> CountedEdge<i64, ShapeCountBoolean> {
        CountedEdge {
            a: IntPoint {
                x: self.a_x,
                y: self.a_y,
            },
            b: IntPoint {
                x: self.b_x,
                y: self.b_y,
            },
            count: ShapeCountBoolean {
                subj: self.subj,
                clip: self.clip,
            },
        }
    }
}

impl EdgeForm<i64, ShapeCountBoolean> for ExactEdge64 {
    ghost meant = { edge_of_64 };

    /// Returns the edge.
    fn edge(self) -> CountedEdge<i64, ShapeCountBoolean> {
        self.value()
    }
}

impl FormOf<CountedEdge<i32, ShapeCountBoolean>> for ExactEdge32 {
    ghost meant = { edge_of_32 };

    /// Returns the edge as C has it.
    fn form(value: CountedEdge<i32, ShapeCountBoolean>) -> ExactEdge32 {
        ExactEdge32 {
            a_x: value.a.x,
            a_y: value.a.y,
            b_x: value.b.x,
            b_y: value.b.y,
            subj: value.count.subj,
            clip: value.count.clip,
        }
    }

    /// Returns the edge.
    fn value(self) -> CountedEdge<i32, ShapeCountBoolean> {
        CountedEdge {
            a: IntPoint {
                x: self.a_x,
                y: self.a_y,
            },
            b: IntPoint {
                x: self.b_x,
                y: self.b_y,
            },
            count: ShapeCountBoolean {
                subj: self.subj,
                clip: self.clip,
            },
        }
    }
}

impl EdgeForm<i32, ShapeCountBoolean> for ExactEdge32 {
    ghost meant = { edge_of_32 };

    /// Returns the edge.
    fn edge(self) -> CountedEdge<i32, ShapeCountBoolean> {
        self.value()
    }
}
