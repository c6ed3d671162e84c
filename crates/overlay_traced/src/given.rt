//! Edges as they are given, each of the subject or of the clip.

ghost use Rattle.std.specs.Prelude.{◌≡◌, ◌⊎◌, ◌^◌, ◌<◌, ◌≤◌, ◌++◌, ℕ, [], All, IfErr, IsErrOf, OnOk, map};
ghost use Rattle.overlay_geom.specs.Counts.{weight_of_counts};
ghost use Rattle.overlay_geom.specs.Edges.{weight};
ghost use Rattle.overlay_order.specs.Counts.{boolean_counts};
ghost use Rattle.overlay_plane.specs.Carried.{edges_in};
ghost use Rattle.overlay_traced.specs.Given.{IsGivenInRange, given_mark, held_edge, held_edges, plain_given};
ghost use Rattle.overlay_traced.specs.Given.{value_along, value_back};
ghost use Rattle.overlay_traced.specs.declared.source.Passage.{Passage};

use crate::mark::Mark;
use crate::source::{Passage, turned};
use overlay_arrange::content::Content;
use overlay_builder::boolean::passing;
use overlay_geom::error::OverlayError;
use overlay_geom::number::IntNumber;
use overlay_geom::options::ShapeType;
use overlay_geom::point::IntPoint;
use overlay_order::data::{CountWithData, OverlayEdgeData};
use overlay_order::edge::{CountedEdge, compare_points};
use std::alloc::Allocator;
use std::cmp::Ordering;

/// An edge as it is given, from a to b.
#[derive(Debug, Clone, Copy, PartialEq)]
pub struct GivenEdge<I> {
    /// Where the edge begins.
    pub a: IntPoint<I>,
    /// Where it ends.
    pub b: IntPoint<I>,
    /// Whether it is one of the subject or of the clip.
    pub shape_type: ShapeType,
}

/// Data by which a given edge is told from the others.
pub trait GivenData: OverlayEdgeData {
    // The data of the given edge with the number, as it lies on the edge that carries it.
    ghost given: { ℕ → Passage → Self };

    /// Returns the data of the given edge with the number, as it lies on the edge that carries it.
    fn of_given(number: usize, passage: Passage) -> Self
        ensures { result ≡ given number passage };
}

impl<'a> GivenData for Mark<'a> {
    ghost given = { given_mark };

    fn of_given(number: usize, passage: Passage) -> Mark<'a> {
        Mark::Given(number, passage)
    }
}

/// Adds the edges, in order, to a content without edges. Each carries the data of its number, counted from 0. An edge
/// between equal points is none. All ends are in the coordinate range.
///
/// Refusals are `TooManyEdges`, where the edges weigh 2^31 or more, and `Memory`.
pub(crate) fn add_given<I: IntNumber, D: GivenData, A: Allocator>(
    content: &mut Content<I, CountWithData<D>, A>,
    edges: &[GivenEdge<I>],
) -> Result<(), OverlayError>
    requires empty { content.old ≡ [] }
    requires in_range { All (IsGivenInRange I.whole I.limit) edges.now }
    ensures held { OnOk result (content.new ≡ held_edges D.given (map (plain_given I.whole) edges.now)) }
    ensures err { IfErr result (λ e. (e ≡ OverlayError.Memory) ⊎ ((e ≡ OverlayError.TooManyEdges)
        × (2 ^ 31 ≤ weight (edges_in (held_edges D.given (map (plain_given I.whole) edges.now)))))) }
{
    for (number, edge) in edges.iter().enumerate() {
        push_given(content, *edge, number)?;
    }
    Ok(())
}

// Adds the edge with the number, from its smaller to its larger end.
fn push_given<I: IntNumber, D: GivenData, A: Allocator>(
    content: &mut Content<I, CountWithData<D>, A>,
    edge: GivenEdge<I>,
    number: usize,
) -> Result<(), OverlayError>
    requires in_range { IsGivenInRange I.whole I.limit edge }
    ensures held { OnOk result (content.new ≡ content.old ++ held_edge D.given number (plain_given I.whole edge)) }
    ensures too_many { IsErrOf result OverlayError.TooManyEdges
        → 2 ^ 31 ≤ weight (edges_in (content.old ++ held_edge D.given number (plain_given I.whole edge))) }
    ensures only { IfErr result (λ e. (e ≡ OverlayError.Memory) ⊎ (e ≡ OverlayError.TooManyEdges)) }
{
    match compare_points(edge.a, edge.b) {
        Ordering::Equal => Ok(()),
        Ordering::Less => content.push(CountedEdge {
            a: edge.a,
            b: edge.b,
            count: value_along(edge.shape_type, number),
        }),
        Ordering::Greater => content.push(CountedEdge {
            a: edge.b,
            b: edge.a,
            count: value_back(edge.shape_type, number),
        }),
    }
}

// What the edge with the number carries where it runs from its smaller to its larger end.
fn value_along<D: GivenData>(shape_type: ShapeType, number: usize) -> CountWithData<D>
    ensures value { result ≡ value_along D.given shape_type number }
    ensures light { weight_of_counts (boolean_counts result.count) < 2 ^ 31 }
{
    CountWithData {
        count: passing(shape_type).along,
        edge_data: D::of_given(number, Passage::ALONG),
    }
}

// What it carries where it runs back.
fn value_back<D: GivenData>(shape_type: ShapeType, number: usize) -> CountWithData<D>
    ensures value { result ≡ value_back D.given shape_type number }
    ensures light { weight_of_counts (boolean_counts result.count) < 2 ^ 31 }
{
    CountWithData {
        count: passing(shape_type).back,
        edge_data: D::of_given(number, turned(Passage::ALONG)),
    }
}
