//! The roads round blocks, traced as contours of edges with data.

ghost use Rattle.std.specs.Prelude.{◌≡◌, map, min, IfOk};
ghost use Rattle.overlay_vector.specs.AddedEdges.{IsEdgeInRange};

use overlay_geom::error::OverlayError;
use overlay_geom::fill_rule::FillRule;
use overlay_geom::integer::OverlayInt;
use overlay_geom::overlay_rule::OverlayRule;
use overlay_order::count::ShapeCountBoolean;
use overlay_order::data::{EdgeDataMerge, OverlayEdgeData};
use overlay_order::vector::DataVectorEdge;
use overlay_vector::edge_overlay::{EdgeOverlay, IntOverlayOptions, ShapeType};
use overlay_vector::input_edge::InputEdge;
use overlay_vector::path::DataVectorShape;
use std::alloc::{AllocError, Allocator};

/// A road by its number. Where roads lie on one another the smallest number stands for all of them.
#[derive(Debug, Clone, Copy, PartialEq, Eq)]
pub struct Road {
    /// The number.
    pub number: u32,
}

impl OverlayEdgeData for Road {
    type Store = ();

    ghost merges = { λ _ c _ d m. m.number ≡ min c.number d.number };

    fn merge(merge: EdgeDataMerge<ShapeCountBoolean, Road>, _store: &mut ()) -> Road
        ensures { result.number ≡ min merge.lhs_data.number merge.rhs_data.number }
    {
        Road {
            number: merge.lhs_data.number.min(merge.rhs_data.number),
        }
    }

    fn split(self, _store: &mut ()) -> Road {
        self
    }

    fn reversed(self, _store: &mut ()) -> Road {
        self
    }
}

/// A builder without roads, in whose answers pieces of one road on one line are joined.
pub fn no_roads<I: OverlayInt, A: Allocator + Clone>(
    alloc: A,
) -> Result<EdgeOverlay<I, Road, A>, OverlayError> {
    let mut overlay = EdgeOverlay::new(alloc, 0)?;
    overlay.options = IntOverlayOptions::default();
    Ok(overlay)
}

/// Adds a piece of a road that runs round a block, on its way counterclockwise.
pub fn add_piece<I: OverlayInt, A: Allocator + Clone>(
    overlay: &mut EdgeOverlay<I, Road, A>,
    piece: InputEdge<I, Road>,
) -> Result<(), OverlayError>
    requires { IsEdgeInRange I.whole I.limit piece }
{
    overlay.add_edge(piece, ShapeType::Subject)
}

/// The ways round all blocks, as shapes of edges with their roads; none where the roads round some block are
/// not closed.
pub fn ways_round<I: OverlayInt, A: Allocator + Clone>(
    overlay: &mut EdgeOverlay<I, Road, A>,
) -> Result<Option<Vec<DataVectorShape<I, Road, A>, A>>, OverlayError> {
    if !overlay.is_balanced() {
        return Ok(None);
    }
    let shapes = overlay.build_vector_shapes(OverlayRule::Union, FillRule::NonZero)?;
    Ok(Some(shapes))
}

/// The numbers of the roads along a way, edge by edge.
pub fn roads_along<I: OverlayInt, A: Allocator>(
    alloc: A,
    way: &[DataVectorEdge<I, Road>],
) -> Result<Vec<u32, A>, AllocError>
    ensures roads { IfOk result (λ v. v.items ≡ map (λ e. e.edge_data.number) way.now) }
{
    let mut roads = Vec::with_capacity(alloc, way.len())?;
    for edge in way {
        roads.push(edge.edge_data.number)?;
    }
    Ok(roads)
}
