//! Islands: the hole round each outline.

ghost use Rattle.std.specs.Prelude.{◌≡◌, length, All, IfOk};
ghost use Rattle.overlay_plane.specs.BoundContours.{walks_in};
ghost use Rattle.overlay_plane.specs.Islands.{hole_places, AreHolesRound};
ghost use Rattle.overlay_plane.specs.KeptContours.{CanBeBound};
ghost use Rattle.overlay_plane.specs.Turn.{other_hand};
ghost use Rattle.overlay_scan.specs.Scan.{empty_sweep};
ghost use Rattle.overlay_walk.specs.GroupedContours.{plain_contours};
ghost use Rattle.overlay_extract.specs.HolePlaces.{at_outlines};
ghost use Rattle.overlay_walk.specs.Steps.{filled_hand, IsLong};

use crate::binding::sweep::parents_by_sweep;
use overlay_geom::number::IntNumber;
use overlay_geom::options::ContourDirection;
use overlay_scan::scan::Scan;
use overlay_walk::contour::Contour;
use std::alloc::{AllocError, Allocator};

/// Returns for each outline, in order, the place of the hole round it among the contours. The next filled-below edge
/// below the outline's anchor decides. If a hole has that edge, it is this hole; if an outline has it, the hole round
/// that outline. The result is None if there is no such edge, or if that outline has no hole round it.
///
/// The contours are as for [`bind_contours`](crate::binding::bind::bind_contours), in any order. Where the contours of
/// each shape stand together, shape after shape, a place counts through the contours of all shapes. The scan is empty
/// at first; its content afterwards is left open.
pub fn holes_round<I: IntNumber, A: Allocator + Clone, S: Scan<I, usize>>(
    alloc: A,
    scan: &mut S,
    contours: &[Contour<I, A>],
    direction: ContourDirection,
) -> Result<Vec<Option<usize>, A>, AllocError>
    requires long { All (All (IsLong I.limit)) (walks_in (plain_contours I.whole contours.now)) }
    requires bindable { CanBeBound (filled_hand direction) (walks_in (plain_contours I.whole contours.now)) }
    requires empty { S.content scan.old ≡ empty_sweep }
    ensures round { IfOk result
        (λ v. AreHolesRound (filled_hand direction) (plain_contours I.whole contours.now) v.items) }
{
    let places = hole_places(alloc.clone()?, contours)?;
    let below = other_direction(direction);
    let found = parents_by_sweep(alloc.clone()?, scan, contours, &places, below)?;
    at_outlines(alloc, contours, &found)
}

// Returns the direction of contours whose filled-above edges are the filled-below edges of those in `direction`.
fn other_direction(direction: ContourDirection) -> ContourDirection
    ensures { filled_hand result ≡ other_hand (filled_hand direction) }
{
    match direction {
        ContourDirection::CounterClockwise => ContourDirection::Clockwise,
        ContourDirection::Clockwise => ContourDirection::CounterClockwise,
    }
}

/// Returns for each contour its place if it is a hole, or None if it is an outline.
pub fn hole_places<I: IntNumber, A: Allocator>(
    alloc: A,
    contours: &[Contour<I, A>],
) -> Result<Vec<Option<usize>, A>, AllocError>
    ensures ok { IfOk result (λ v. v.items ≡ hole_places 0 (plain_contours I.whole contours.now)) }
{
    let mut places = Vec::new(alloc);
    for i in 0..contours.len() {
        if contours[i].role.is_outline() {
            places.push(None)?;
        } else {
            places.push(Some(i))?;
        }
    }
    Ok(places)
}

// Returns the entries at the outlines' places, in order.
fn at_outlines<I: IntNumber, A: Allocator>(
    alloc: A,
    contours: &[Contour<I, A>],
    found: &[Option<usize>],
) -> Result<Vec<Option<usize>, A>, AllocError>
    requires { length found.now ≡ length contours.now }
    ensures ok { IfOk result (λ v. v.items ≡ at_outlines (plain_contours I.whole contours.now) found.now) }
{
    let mut at = Vec::new(alloc);
    for i in 0..contours.len() {
        if contours[i].role.is_outline() {
            at.push(found[i])?;
        }
    }
    Ok(at)
}
