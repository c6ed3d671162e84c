//! Pieces of strings, and which of them no path has taken yet.

ghost use Rattle.std.specs.Prelude.{◌≡◌, [], length, IfOk, OnOk, option_map};
ghost use Rattle.overlay_geom.specs.Points.{plain_point};
ghost use Rattle.overlay_string.specs.OpenPlaces.{open_before, IsFirstPlace, IsFirstPlaceAt};
ghost use Rattle.overlay_string.specs.PieceOrder.{AreByStart, AreByStartIfAny};
ghost use Rattle.overlay_string.specs.Pieces.{plain_piece, plain_pieces, IsTakenAt, IsTakenFirst};
ghost use Rattle.overlay_string.specs.declared.piece.Way.TheVariants.{Onward, Back};

use crate::by_start::{first_open_from, places_onward, steps_by_start};
use crate::piece::{Piece, Way};
use crate::taken_pieces::is_taken;
use overlay_geom::number::IntNumber;
use overlay_geom::point::IntPoint;
use overlay_walk::onward::noted;
use overlay_walk::step::Step;
use std::alloc::{AllocError, Allocator};
use std::marker::Model;

/// Pieces, in order, and which of them are open: no path has taken them yet.
#[derive(Drop)]
pub(crate) struct OpenPieces<I: IntNumber, A: Allocator> {
    pieces: Vec<Piece<I>, A>,
    // which of them a path has taken
    taken: Vec<bool, A>,
    // a place before which none is open
    passed: usize,
    // the piece that was taken last
    last: usize,
    // the pieces by the points that they leave, once one is looked for there
    onward: Sorted<I, A>,
    // the pieces turned back, by the points at which they arrive, once one is looked for there
    back: Sorted<I, A>,
}

// Pieces, seen on a way, by the points where they begin.
#[derive(Drop)]
struct Sorted<I, A: Allocator> {
    steps: Vec<Step<I>, A>,
    // for each piece a note of the place where the steps that go on from it are looked for first
    notes: Vec<u32, A>,
}

impl<I: IntNumber, A: Allocator> Model for OpenPieces<I, A> {
    ghost use Rattle.std.specs.Prelude.{List};
    ghost use Rattle.overlay_geom.specs.Plane.{Step};
    ghost use Rattle.overlay_walk.specs.Steps.{unmarked};
    ghost use Rattle.overlay_string.specs.PieceOrder.{AreOpenPieces};
    ghost use Rattle.overlay_string.specs.Pieces.{plain_pieces};

    ghost Value = { List Step };

    ghost view = { λ o. unmarked (plain_pieces I.whole o.pieces.items) o.taken.items };

    ghost invariant = { λ o. AreOpenPieces I.whole (plain_pieces I.whole o.pieces.items) o.taken.items o.passed
        o.onward.steps.items o.back.steps.items };
}

impl<I: IntNumber, A: Allocator> OpenPieces<I, A> {
    /// The first of the open pieces, which is taken.
    pub(crate) fn take_first(&mut self) -> Option<Piece<I>>
        ensures { IsTakenFirst self.old self.new (option_map (plain_piece I.whole) result) }
    {
        let place = first_open(&self.pieces, &self.taken, self.passed)?;
        self.taken[place] = true;
        self.passed = place;
        self.last = place;
        Some(self.pieces[place])
    }
}

impl<I: IntNumber, A: Allocator + Clone> OpenPieces<I, A> {
    /// All the pieces, none of them taken.
    pub(crate) fn new(pieces: Vec<Piece<I>, A>) -> Result<Self, AllocError>
        ensures ok { IfOk result (λ o. o ≡ plain_pieces I.whole pieces.items) }
    {
        let onward = none_sorted(pieces.allocator())?;
        let back = none_sorted(pieces.allocator())?;
        let mut taken = Vec::new(pieces.allocator().clone()?);
        taken.resize(pieces.len(), false)?;
        Ok(OpenPieces {
            pieces,
            taken,
            passed: 0,
            last: 0,
            onward,
            back,
        })
    }

    /// The first of the open pieces that begin at a point, seen on the way; it is taken. After a refusal, none is.
    pub(crate) fn take_at(
        &mut self,
        way: Way,
        point: IntPoint<I>,
    ) -> Result<Option<Piece<I>>, AllocError>
        ensures ok { IfOk result (λ p. IsTakenAt way (plain_point I.whole point) self.old self.new
            (option_map (plain_piece I.whole) p)) }
    {
        let sought = Sought {
            way,
            point,
            last: self.last,
        };
        let found = first_open_on(
            &mut self.onward,
            &mut self.back,
            &self.pieces,
            &self.taken,
            sought,
        )?;
        match found {
            Some(place) => {
                self.taken[place] = true;
                self.last = place;
                Ok(Some(self.pieces[place]))
            }
            None => Ok(None),
        }
    }
}

// Nothing sorted yet.
fn none_sorted<I: IntNumber, A: Allocator + Clone>(alloc: &A) -> Result<Sorted<I, A>, AllocError>
    ensures { IfOk result (λ s. s.steps.items ≡ []) }
{
    let steps = Vec::new(alloc.clone()?);
    let notes = Vec::new(alloc.clone()?);
    Ok(Sorted { steps, notes })
}

// The place of the first open piece, where none before a place is open.
fn first_open<I: IntNumber>(pieces: &[Piece<I>], taken: &[bool], passed: usize) -> Option<usize>
    requires marks { length taken.now ≡ length pieces.now }
    requires passed { open_before (plain_pieces I.whole pieces.now) taken.now passed ≡ [] }
    ensures { IsFirstPlace (plain_pieces I.whole pieces.now) taken.now result }
{
    for place in passed..pieces.len() {
        if !is_taken(taken, place) {
            return Some(place);
        }
    }
    None
}

// Where a piece is looked for: at a point, seen on a way, behind the piece that was taken last.
#[derive(Clone, Copy)]
struct Sought<I> {
    way: Way,
    // the end of a piece
    point: IntPoint<I>,
    last: usize,
}

// The place of the first open piece that begins at the point, seen on the way.
fn first_open_on<I: IntNumber, A: Allocator + Clone>(
    onward: &mut Sorted<I, A>,
    back: &mut Sorted<I, A>,
    pieces: &[Piece<I>],
    taken: &[bool],
    sought: Sought<I>,
) -> Result<Option<usize>, AllocError>
    requires marks { length taken.now ≡ length pieces.now }
    requires onward { AreByStartIfAny I.whole Onward (plain_pieces I.whole pieces.now) onward.old.steps.items }
    requires back { AreByStartIfAny I.whole Back (plain_pieces I.whole pieces.now) back.old.steps.items }
    ensures ok { IfOk result (IsFirstPlaceAt sought.way (plain_point I.whole sought.point)
        (plain_pieces I.whole pieces.now) taken.now) }
    ensures onward { AreByStartIfAny I.whole Onward (plain_pieces I.whole pieces.now) onward.new.steps.items }
    ensures back { AreByStartIfAny I.whole Back (plain_pieces I.whole pieces.now) back.new.steps.items }
{
    match sought.way {
        Way::Onward => first_open_at(onward, pieces, taken, sought),
        Way::Back => first_open_at(back, pieces, taken, sought),
    }
}

// That place, found among the pieces by where they begin, seen on the way.
fn first_open_at<I: IntNumber, A: Allocator + Clone>(
    sorted: &mut Sorted<I, A>,
    pieces: &[Piece<I>],
    taken: &[bool],
    sought: Sought<I>,
) -> Result<Option<usize>, AllocError>
    requires marks { length taken.now ≡ length pieces.now }
    requires steps { AreByStartIfAny I.whole sought.way (plain_pieces I.whole pieces.now) sorted.old.steps.items }
    ensures ok { IfOk result (IsFirstPlaceAt sought.way (plain_point I.whole sought.point)
        (plain_pieces I.whole pieces.now) taken.now) }
    ensures steps { AreByStartIfAny I.whole sought.way (plain_pieces I.whole pieces.now) sorted.new.steps.items }
{
    make_by_start(sorted, pieces, sought.way)?;
    let near = noted(&sorted.notes, sought.last);
    Ok(first_open_from(&sorted.steps, taken, near, sought.point))
}

// Makes the steps that are the pieces by where they begin, seen on the way, unless they are made already.
fn make_by_start<I: IntNumber, A: Allocator + Clone>(
    sorted: &mut Sorted<I, A>,
    pieces: &[Piece<I>],
    way: Way,
) -> Result<(), AllocError>
    requires { AreByStartIfAny I.whole way (plain_pieces I.whole pieces.now) sorted.old.steps.items }
    ensures ok { OnOk result (AreByStart I.whole way (plain_pieces I.whole pieces.now) sorted.new.steps.items) }
    ensures steps { AreByStartIfAny I.whole way (plain_pieces I.whole pieces.now) sorted.new.steps.items }
{
    if sorted.steps.is_empty() {
        let alloc = sorted.steps.allocator().clone()?;
        sorted.steps = steps_by_start(alloc.clone()?, pieces, way)?;
        sorted.notes = places_onward(alloc, &sorted.steps, pieces, way)?;
    }
    Ok(())
}
