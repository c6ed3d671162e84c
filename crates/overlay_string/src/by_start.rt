//! Pieces, seen on a way, by the points where they begin.

ghost use Rattle.std.specs.Prelude.{◌≡◌, ◌<◌, length, All, IfOk};
ghost use Rattle.overlay_geom.specs.Points.{plain_point};
ghost use Rattle.overlay_string.specs.PieceOrder.{AreByStart, AreInOrder, AreNumbered, IsFirstFrom};
ghost use Rattle.overlay_string.specs.Pieces.{plain_piece, plain_pieces, turned};
ghost use Rattle.overlay_walk.specs.Steps.{plain_step};

use crate::piece::{Piece, Way};
use crate::taken_pieces::is_taken;
use overlay_geom::number::IntNumber;
use overlay_geom::point::IntPoint;
use overlay_order::edge::compare_points;
use overlay_order::sort_points::order_by_points;
use overlay_walk::next::count_leaving_below;
use overlay_walk::onward::{first_near, note_of};
use overlay_walk::step::Step;
use std::alloc::{AllocError, Allocator};

/// The pieces, seen on the way, each with its place, by the points that they leave, and those from one point by their
/// places.
pub(crate) fn steps_by_start<I: IntNumber, A: Allocator + Clone>(
    alloc: A,
    pieces: &[Piece<I>],
    way: Way,
) -> Result<Vec<Step<I>, A>, AllocError>
    ensures ok { IfOk result (λ v. AreByStart I.whole way (plain_pieces I.whole pieces.now) v.items) }
{
    let mut steps = numbered_steps(alloc, pieces, way)?;
    order_by_points(&mut steps, |s| s.from)?;
    steps.sort_by(|s, t| compare_points(s.from, t.from).then(s.edge.cmp(&t.edge)))?;
    Ok(steps)
}

// The pieces, seen on the way, each with its place, in their order.
fn numbered_steps<I: IntNumber, A: Allocator>(
    alloc: A,
    pieces: &[Piece<I>],
    way: Way,
) -> Result<Vec<Step<I>, A>, AllocError>
    ensures ok { IfOk result (λ v.
        AreNumbered I.whole way (plain_pieces I.whole pieces.now) (length pieces.now) v.items) }
{
    let mut steps = Vec::with_capacity(alloc, pieces.len())?;
    for place in 0..pieces.len() {
        steps.push_reserved(numbered_step(pieces[place], way, place));
    }
    Ok(steps)
}

// A piece, seen on the way, with a number.
fn numbered_step<I: IntNumber>(piece: Piece<I>, way: Way, number: usize) -> Step<I>
    ensures along { plain_step I.whole result ≡ turned way (plain_piece I.whole piece) }
    ensures number { result.edge ≡ number }
{
    Step {
        from: piece.start(way),
        to: piece.end(way),
        edge: number,
    }
}

/// Returns for each piece, seen on the way, a note of the first place of the steps that leave its end. The steps are in
/// the order of the points that they leave, the pieces in that of their edges' starts. A note promises nothing.
pub(crate) fn places_onward<I: IntNumber, A: Allocator>(
    alloc: A,
    steps: &[Step<I>],
    pieces: &[Piece<I>],
    way: Way,
) -> Result<Vec<u32, A>, AllocError> {
    let mut onward = Vec::with_capacity(alloc, pieces.len())?;
    let mut near = 0;
    for piece in pieces {
        near = first_near(steps, near, piece.end(way));
        onward.push(note_of(near))?;
    }
    Ok(onward)
}

/// The smallest number of those of the steps from a point that are not taken. They are looked for at the place `near`
/// first.
pub(crate) fn first_open_from<I: IntNumber>(
    steps: &[Step<I>],
    taken: &[bool],
    near: usize,
    point: IntPoint<I>,
) -> Option<usize>
    requires order { AreInOrder I.whole steps.now }
    requires within { All (λ s. s.edge < length taken.now) steps.now }
    ensures { IsFirstFrom I.whole steps.now taken.now (plain_point I.whole point) result }
{
    let low = count_leaving_below(steps, near, point);
    for i in low..steps.len() {
        let step = steps[i];
        if !compare_points(step.from, point).is_eq() {
            return None;
        }
        if !is_taken(taken, step.edge) {
            return Some(step.edge);
        }
    }
    None
}
