//! Graphs as C has them. It hands them back as they are, and looks at none of their numbers.

ghost use Rattle.std.specs.Prelude.{◌≡◌};
ghost use Rattle.polyover_calls.specs.Statuses.{code_of};
ghost use Rattle.polyover_views.specs.Held.{edge_of_32, edge_of_64, graph_at_32, graph_at_64, graph_of};

use crate::made::{HeldGraph, Making};
use overlay_geom::point::IntPoint;
use overlay_order::count::ShapeCountBoolean;
use overlay_order::data::CountWithData;
use overlay_order::edge::CountedEdge;
use overlay_relate::form::FormOf;

/// A counted edge of 64-bit coordinates.
#[repr(C)]
#[derive(Clone, Copy)]
pub struct GraphEdge64 {
    /// The x-coordinate of the smaller end.
    pub a_x: i64,
    /// Its y-coordinate.
    pub a_y: i64,
    /// The x-coordinate of the larger end.
    pub b_x: i64,
    /// Its y-coordinate.
    pub b_y: i64,
    /// How often the subject passes the edge from its smaller to its larger end, minus how often back.
    pub subj: i32,
    /// How often the clip does.
    pub clip: i32,
}

/// A graph of 64-bit coordinates. Its edges, where there are some, lie in a block of their own, which C frees.
#[repr(C)]
#[derive(Clone, Copy)]
pub struct Graph64<'a> {
    /// The edges of the arrangement, by their smaller and then their larger ends.
    pub edges: &'a [GraphEdge64],
    /// The number of the fill rule.
    pub fill: u32,
    /// The number of the solver that made the arrangement.
    pub solver: u32,
    /// 1 where given points on one line are kept, else 0.
    pub keep_given: u32,
}

/// A counted edge of 32-bit coordinates.
#[repr(C)]
#[derive(Clone, Copy)]
pub struct GraphEdge32 {
    /// The x-coordinate of the smaller end.
    pub a_x: i32,
    /// Its y-coordinate.
    pub a_y: i32,
    /// The x-coordinate of the larger end.
    pub b_x: i32,
    /// Its y-coordinate.
    pub b_y: i32,
    /// How often the subject passes the edge from its smaller to its larger end, minus how often back.
    pub subj: i32,
    /// How often the clip does.
    pub clip: i32,
}

/// A graph of 32-bit coordinates.
#[repr(C)]
#[derive(Clone, Copy)]
pub struct Graph32<'a> {
    /// The edges of the arrangement, by their smaller and then their larger ends.
    pub edges: &'a [GraphEdge32],
    /// The number of the fill rule.
    pub fill: u32,
    /// The number of the solver that made the arrangement.
    pub solver: u32,
    /// 1 where given points on one line are kept, else 0.
    pub keep_given: u32,
}

impl<'a> Graph64<'a> {
    /// Gives C the graph, and returns the code of the status.
    pub fn give(&mut self, made: &Making<'a, GraphEdge64>) -> u32
        ensures graph { graph_at_64 self.new ≡ graph_of (λ z. z) edge_of_64 made.now.graph }
        ensures code { result ≡ code_of made.now.status }
    {
        let graph = made.graph;
        *self = Graph64 {
            edges: graph.edges,
            fill: graph.fill,
            solver: graph.solver,
            keep_given: graph.keep_given,
        };
        made.status.code()
    }

    /// Returns the graph.
    pub fn held(&self) -> HeldGraph<'a, GraphEdge64>
        ensures edges { result.edges.now ≡ self.now.edges.now }
        ensures fill { result.fill ≡ self.now.fill }
        ensures solver { result.solver ≡ self.now.solver }
        ensures keep_given { result.keep_given ≡ self.now.keep_given }
    {
        HeldGraph {
            edges: self.edges,
            fill: self.fill,
            solver: self.solver,
            keep_given: self.keep_given,
        }
    }
}

impl<'a> Graph32<'a> {
    /// Gives C the graph, and returns the code of the status.
    pub fn give(&mut self, made: &Making<'a, GraphEdge32>) -> u32
        ensures graph { graph_at_32 self.new ≡ graph_of (λ z. z) edge_of_32 made.now.graph }
        ensures code { result ≡ code_of made.now.status }
    {
        let graph = made.graph;
        *self = Graph32 {
            edges: graph.edges,
            fill: graph.fill,
            solver: graph.solver,
            keep_given: graph.keep_given,
        };
        made.status.code()
    }

    /// Returns the graph.
    pub fn held(&self) -> HeldGraph<'a, GraphEdge32>
        ensures edges { result.edges.now ≡ self.now.edges.now }
        ensures fill { result.fill ≡ self.now.fill }
        ensures solver { result.solver ≡ self.now.solver }
        ensures keep_given { result.keep_given ≡ self.now.keep_given }
    {
        HeldGraph {
            edges: self.edges,
            fill: self.fill,
            solver: self.solver,
            keep_given: self.keep_given,
        }
    }
}

impl FormOf<CountedEdge<i64, CountWithData<()>>> for GraphEdge64 {
    ghost meant = { edge_of_64 };

    /// Returns the edge as C has it.
    fn form(value: CountedEdge<i64, CountWithData<()>>) -> GraphEdge64 {
        GraphEdge64 {
            a_x: value.a.x,
            a_y: value.a.y,
            b_x: value.b.x,
            b_y: value.b.y,
            subj: value.count.count.subj,
            clip: value.count.count.clip,
        }
    }

    /// Returns the edge.
    fn value(self) -> CountedEdge<i64, CountWithData<()>> {
        CountedEdge {
            a: IntPoint {
                x: self.a_x,
                y: self.a_y,
            },
            b: IntPoint {
                x: self.b_x,
                y: self.b_y,
            },
            count: CountWithData {
                count: ShapeCountBoolean {
                    subj: self.subj,
                    clip: self.clip,
                },
                edge_data: (),
            },
        }
    }
}

impl FormOf<CountedEdge<i32, CountWithData<()>>> for GraphEdge32 {
    ghost meant = { edge_of_32 };

    /// Returns the edge as C has it.
    fn form(value: CountedEdge<i32, CountWithData<()>>) -> GraphEdge32 {
        GraphEdge32 {
            a_x: value.a.x,
            a_y: value.a.y,
            b_x: value.b.x,
            b_y: value.b.y,
            subj: value.count.count.subj,
            clip: value.count.count.clip,
        }
    }

    /// Returns the edge.
    fn value(self) -> CountedEdge<i32, CountWithData<()>> {
        CountedEdge {
            a: IntPoint {
                x: self.a_x,
                y: self.a_y,
            },
            b: IntPoint {
                x: self.b_x,
                y: self.b_y,
            },
            count: CountWithData {
                count: ShapeCountBoolean {
                    subj: self.subj,
                    clip: self.clip,
                },
                edge_data: (),
            },
        }
    }
}
