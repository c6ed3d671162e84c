//! Edges that C passes, each of the subject or of the clip.

ghost use Rattle.std.specs.Prelude.{◌≡◌, ◌↔◌, ◌+◌, ◌≤◌, All, IfOk, IsOkUnless, IsTrue, MatchResult};
ghost use Rattle.std.specs.Prelude.{length, map};
ghost use Rattle.overlay_traced.specs.Given.{IsGivenInRange, plain_given};
ghost use Rattle.polyover_calls.specs.Reading.{AreWithin};
ghost use Rattle.polyover_traced.specs.EdgeLists.{AreEdges, AreSides, HaveFault, edge_list};
ghost use Rattle.polyover_traced.specs.EdgeLists.{side_of, sided_at, sided_edges};

use overlay_geom::number::IntNumber;
use overlay_geom::options::ShapeType;
use overlay_geom::point::IntPoint;
use overlay_traced::given::GivenEdge;
use polyover_calls::status::Status;
use polyover_calls::test::are_within;
use std::alloc::Global;

/// Edges as arrays have them.
#[derive(Clone, Copy)]
pub struct EdgeList<'a, I> {
    pub(crate) coordinates: &'a [I],
    pub(crate) sides: &'a [u8],
}

/// Edges of 64-bit coordinates: of each x and y of the first and of the second end, and its side, 0 for the subject and
/// 1 for the clip.
#[repr(C)]
#[derive(Clone, Copy)]
pub struct EdgeList64<'a> {
    /// The coordinates, four for each edge.
    pub coordinates: &'a [i64],
    /// The side of each edge.
    pub sides: &'a [u8],
}

/// The same of 32-bit coordinates.
#[repr(C)]
#[derive(Clone, Copy)]
pub struct EdgeList32<'a> {
    /// The coordinates, four for each edge.
    pub coordinates: &'a [i32],
    /// The side of each edge.
    pub sides: &'a [u8],
}

impl<'a> EdgeList64<'a> {
    /// Returns the edges.
    pub fn given(&self) -> EdgeList<'a, i64>
        ensures coordinates { result.coordinates.now ≡ self.now.coordinates.now }
        ensures sides { result.sides.now ≡ self.now.sides.now }
    {
        EdgeList {
            coordinates: self.coordinates,
            sides: self.sides,
        }
    }
}

impl<'a> EdgeList32<'a> {
    /// Returns the edges.
    pub fn given(&self) -> EdgeList<'a, i32>
        ensures coordinates { result.coordinates.now ≡ self.now.coordinates.now }
        ensures sides { result.sides.now ≡ self.now.sides.now }
    {
        EdgeList {
            coordinates: self.coordinates,
            sides: self.sides,
        }
    }
}

/// Returns whether each side is that of the subject or of the clip.
pub(crate) fn are_sides(sides: &[u8]) -> bool
    ensures { IsTrue result ↔ AreSides sides.now }
{
    for side in sides {
        if *side > 1 {
            return false;
        }
    }
    true
}

/// Tests whether the coordinates are four for each side, and in range: `BadEnds` comes exactly where they are not four,
/// `OutOfRange` exactly where they are and one is out of range, and nothing else.
pub(crate) fn test_edges<I: IntNumber>(edges: &EdgeList<I>) -> Result<(), Status>
    ensures { MatchResult result
        (λ _. AreEdges I.whole I.limit (edge_list edges.now.coordinates.now edges.now.sides.now))
        (HaveFault I.whole I.limit (edge_list edges.now.coordinates.now edges.now.sides.now)) }
{
    if edges.coordinates.len() % 4 != 0 || edges.coordinates.len() / 4 != edges.sides.len() {
        return Err(Status::BadEnds);
    }
    if !are_within(edges.coordinates) {
        return Err(Status::OutOfRange);
    }
    Ok(())
}

/// Returns the edges. The only refusal is `Memory`.
pub(crate) fn read_edges<I: IntNumber>(
    alloc: Global,
    edges: &EdgeList<I>,
) -> Result<Vec<GivenEdge<I>, Global>, Status>
    requires { AreEdges I.whole I.limit (edge_list edges.now.coordinates.now edges.now.sides.now) }
    ensures read { IfOk result (λ v. map (plain_given I.whole) v.items
        ≡ sided_edges I.whole (edge_list edges.now.coordinates.now edges.now.sides.now)) }
    ensures in_range { IfOk result (λ v. All (IsGivenInRange I.whole I.limit) v.items) }
    ensures only { IsOkUnless result Status.Memory }
{
    let mut given = Vec::new(alloc);
    for (i, side) in edges.sides.iter().enumerate() {
        given.push(edge_at(edges.coordinates, 4 * i, *side))?;
    }
    Ok(given)
}

// The edge whose coordinates begin at the place.
fn edge_at<I: IntNumber>(coordinates: &[I], place: usize, side: u8) -> GivenEdge<I>
    requires inside { place + 4 ≤ length coordinates.now }
    requires within { AreWithin I.whole I.limit coordinates.now }
    ensures edge { plain_given I.whole result ≡ sided_at (map I.whole coordinates.now) place side }
    ensures in_range { IsGivenInRange I.whole I.limit result }
{
    GivenEdge {
        a: IntPoint {
            x: coordinates[place],
            y: coordinates[place + 1],
        },
        b: IntPoint {
            x: coordinates[place + 2],
            y: coordinates[place + 3],
        },
        shape_type: side_of(side),
    }
}

// The side with the number.
fn side_of(side: u8) -> ShapeType
    ensures { result ≡ side_of side }
{
    if side == 0 {
        ShapeType::Subject
    } else {
        ShapeType::Clip
    }
}
