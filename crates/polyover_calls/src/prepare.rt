//! Contours in arrays, prepared to be asked where points lie.

ghost use Rattle.std.specs.Prelude.{◌≡◌, IfOk, IsOkUnless, MatchResult, map};
ghost use Rattle.polyover_calls.specs.Given.{contours_of};
ghost use Rattle.polyover_calls.specs.Prepared.{ArePartsOf, IsPreparingRefused, PreparingEnds, parts_of};
ghost use Rattle.polyover_calls.specs.Prepared.{plain_parts};

use crate::given::Contours;
use crate::held::lasting;
use crate::numbers::{fill_of, solver_of};
use crate::read::read_contours;
use crate::status::Status;
use overlay_geom::edge::IntEdge;
use overlay_geom::integer::OverlayInt;
use overlay_relate::blocks::Block;
use overlay_relate::form::FormOf;
use overlay_relate::prepared::PreparedShape;
use overlay_relate::prepared::parts::PreparedParts;
use std::alloc::Global;

/// The parts of a prepared shape, in the forms that C has them in.
#[derive(Clone, Copy)]
pub struct HeldParts<'a, E, B> {
    pub(crate) edges: &'a [E],
    pub(crate) blocks: &'a [B],
    pub(crate) groups: &'a [B],
}

/// The parts that a call hands out, and how it ends.
#[derive(Clone, Copy)]
pub struct Preparation<'a, E, B> {
    pub(crate) parts: HeldParts<'a, E, B>,
    pub(crate) status: Status,
}

// The parts in these forms, before they are handed out.
#[derive(Drop)]
struct FormedParts<E, B> {
    edges: Vec<E, Global>,
    blocks: Vec<B, Global>,
    groups: Vec<B, Global>,
}

/// The parts of the shape that the contours make under the fill rule with the number, in memory that stays.
#[tactic(auto, using(crate::proofs::Preparing::prepared_ends, crate::proofs::Preparing::unprepared_ends))]
pub fn prepared_held<'a, I: OverlayInt, E: FormOf<IntEdge<I>> + 'a, B: FormOf<Block<I>> + 'a>(
    alloc: Global,
    fill: u32,
    solver: u32,
    given: &Contours<I>,
) -> Preparation<'a, E, B>
    ensures { PreparingEnds I.whole I.limit fill solver
        (contours_of given.now.coordinates.now given.now.ends.now)
        (parts_of I.whole E.meant B.meant result.parts) result.status }
{
    match formed_parts(alloc, fill, solver, given) {
        Ok(formed) => {
            let parts = HeldParts {
                edges: lasting(formed.edges),
                blocks: lasting(formed.blocks),
                groups: lasting(formed.groups),
            };
            Preparation {
                parts,
                status: Status::Done,
            }
        }
        Err(status) => {
            let parts = HeldParts {
                edges: &[],
                blocks: &[],
                groups: &[],
            };
            Preparation { parts, status }
        }
    }
}

// The parts in these forms, or why there are none.
#[tactic(auto, using(crate::proofs::Preparing::forms_without_memory, crate::proofs::Preparing::parts_formed))]
fn formed_parts<I: OverlayInt, E: FormOf<IntEdge<I>>, B: FormOf<Block<I>>>(
    alloc: Global,
    fill: u32,
    solver: u32,
    given: &Contours<I>,
) -> Result<FormedParts<E, B>, Status>
    ensures { MatchResult result
        (λ f. ArePartsOf I.whole I.limit fill solver
        (contours_of given.now.coordinates.now given.now.ends.now)
        (plain_parts I.whole (map E.meant f.edges.items) (map B.meant f.blocks.items) (map B.meant f.groups.items)))
        (IsPreparingRefused I.whole I.limit fill solver
        (contours_of given.now.coordinates.now given.now.ends.now)) }
{
    let parts = parts_prepared(alloc, fill, solver, given)?;
    let edges = formed(alloc, &parts.edges)?;
    let blocks = formed(alloc, &parts.blocks)?;
    let groups = formed(alloc, &parts.groups)?;
    Ok(FormedParts {
        edges,
        blocks,
        groups,
    })
}

// The parts of the prepared shape, or why there are none.
#[tactic(auto, using(crate::proofs::Preparing::contours_unprepared, crate::proofs::Preparing::preparing_refused, crate::proofs::Preparing::parts_prepared))]
fn parts_prepared<I: OverlayInt>(
    alloc: Global,
    fill: u32,
    solver: u32,
    given: &Contours<I>,
) -> Result<PreparedParts<I, Global>, Status>
    ensures { MatchResult result
        (λ p. ArePartsOf I.whole I.limit fill solver
        (contours_of given.now.coordinates.now given.now.ends.now)
        (plain_parts I.whole p.edges.items p.blocks.items p.groups.items))
        (IsPreparingRefused I.whole I.limit fill solver
        (contours_of given.now.coordinates.now given.now.ends.now)) }
{
    let fill = fill_of(fill)?;
    let solver = solver_of(solver)?;
    let contours = read_contours(alloc, given.coordinates, given.ends)?;
    let shape = PreparedShape::new(alloc, &contours, fill, solver)?;
    Ok(shape.into_parts())
}

/// The values in a form. The only refusal is `Memory`.
pub fn formed<T: Copy, F: FormOf<T>>(alloc: Global, values: &[T]) -> Result<Vec<F, Global>, Status>
    ensures formed { IfOk result (λ v. map F.meant v.items ≡ values.now) }
    ensures only { IsOkUnless result Status.Memory }
{
    let mut forms = Vec::with_capacity(alloc, values.len())?;
    for value in values {
        forms.push(F::form(*value))?;
    }
    Ok(forms)
}
