//! Contours in arrays, made ready to be asked where points lie, as they are given.

ghost use Rattle.std.specs.Prelude.{◌≡◌, MatchResult, map};
ghost use Rattle.overlay_order.specs.Counts.{boolean_counts};
ghost use Rattle.polyover_calls.specs.Given.{contours_of};
ghost use Rattle.polyover_located.specs.Held.{parts_of, plain_parts};
ghost use Rattle.polyover_located.specs.Prepared.{AreExactPartsOf, ExactPreparingEnds, IsExactPreparingRefused};

use overlay_geom::integer::OverlayInt;
use overlay_located::exact_shape::ExactShape;
use overlay_order::count::ShapeCountBoolean;
use overlay_order::edge::CountedEdge;
use overlay_relate::blocks::Block;
use overlay_relate::form::FormOf;
use polyover_calls::given::Contours;
use polyover_calls::held::lasting;
use polyover_calls::numbers::fill_of;
use polyover_calls::prepare::formed;
use polyover_calls::read::read_contours;
use polyover_calls::status::Status;
use std::alloc::Global;

/// The parts of a shape, in the forms that C has them in.
#[derive(Clone, Copy)]
pub struct HeldShape<'a, E, B> {
    pub(crate) edges: &'a [E],
    pub(crate) blocks: &'a [B],
    pub(crate) groups: &'a [B],
    pub(crate) fill: u32,
}

/// The shape that a call hands out, and how it ends.
#[derive(Clone, Copy)]
pub struct Preparation<'a, E, B> {
    pub(crate) shape: HeldShape<'a, E, B>,
    pub(crate) status: Status,
}

// The parts in these forms, before they are handed out.
#[derive(Drop)]
struct FormedShape<E, B> {
    edges: Vec<E, Global>,
    blocks: Vec<B, Global>,
    groups: Vec<B, Global>,
}

/// Returns the parts of the shape that the contours make under the fill rule with the number, in memory that stays.
#[tactic(auto, using(crate::proofs::Endings::prepared_ends, crate::proofs::Endings::unprepared_ends))]
pub fn shape_held<
    'a,
    I: OverlayInt,
    E: FormOf<CountedEdge<I, ShapeCountBoolean>> + 'a,
    B: FormOf<Block<I>> + 'a,
>(alloc: Global, fill: u32, given: &Contours<I>) -> Preparation<'a, E, B>
    ensures { ExactPreparingEnds I.whole I.limit fill
        (contours_of given.now.coordinates.now given.now.ends.now)
        (parts_of I.whole E.meant B.meant result.shape) result.status }
{
    match formed_shape(alloc, fill, given) {
        Ok(formed) => {
            let shape = HeldShape {
                edges: lasting(formed.edges),
                blocks: lasting(formed.blocks),
                groups: lasting(formed.groups),
                fill,
            };
            Preparation {
                shape,
                status: Status::Done,
            }
        }
        Err(status) => {
            let shape = HeldShape {
                edges: &[],
                blocks: &[],
                groups: &[],
                fill: 0,
            };
            Preparation { shape, status }
        }
    }
}

// Returns the parts in these forms, or why there are none.
#[tactic(auto, using(crate::proofs::Endings::misread, crate::proofs::Endings::refused, crate::proofs::Endings::short))]
fn formed_shape<I: OverlayInt, E: FormOf<CountedEdge<I, ShapeCountBoolean>>, B: FormOf<Block<I>>>(
    alloc: Global,
    fill: u32,
    given: &Contours<I>,
) -> Result<FormedShape<E, B>, Status>
    ensures { MatchResult result
        (λ f. AreExactPartsOf I.whole I.limit fill
        (contours_of given.now.coordinates.now given.now.ends.now)
        (plain_parts I.whole fill (map E.meant f.edges.items) (map B.meant f.blocks.items)
        (map B.meant f.groups.items)))
        (IsExactPreparingRefused I.whole I.limit fill
        (contours_of given.now.coordinates.now given.now.ends.now)) }
{
    let rule = fill_of(fill)?;
    let contours = read_contours(alloc, given.coordinates, given.ends)?;
    let shape = ExactShape::new(alloc, &contours, rule)?;
    let parts = shape.parts();
    let edges = formed(alloc, parts.edges)?;
    let blocks = formed(alloc, parts.blocks)?;
    let groups = formed(alloc, parts.groups)?;
    Ok(FormedShape {
        edges,
        blocks,
        groups,
    })
}
