//! Relations of a subject and a clip as given, told by the filled sides of the pieces of their merged edges.

ghost use Rattle.std.specs.Prelude.{◌≡◌, All, IfOk, IfSome};
ghost use Rattle.overlay_geom.specs.Merged.{IsMerged};
ghost use Rattle.overlay_geom.specs.Rules.{is_filled};
ghost use Rattle.overlay_plane.specs.Balance.{HasBalancedCounts};
ghost use Rattle.overlay_order.specs.Content.{plain_edges, IsHeld, IsAscending};
ghost use Rattle.overlay_given.specs.Relations.{AreContacts, AreInteriorRelations, IsFoundOf, relations_by};
ghost use Rattle.overlay_given.specs.Relations.{IsCrossing};

use crate::crossing::crossing_contacts;
use crate::shared::has_shared_place;
use crate::sides::{FilledSides, SideTest, some_pass};
use crate::walk::find_sides;
use overlay_exact::exact_int::ExactInt;
use overlay_exact::meetings::find_meetings;
use overlay_geom::fill_rule::FillRule;
use overlay_order::count::EdgeCount;
use overlay_order::edge::CountedEdge;
use std::alloc::{AllocError, Allocator};

/// Whether each relation holds that tells of the interiors of a subject and a clip alone.
#[derive(Debug, Clone, Copy, PartialEq, Eq)]
pub struct InteriorRelations {
    /// Some point off the edges is filled by both.
    pub interiors_intersect: bool,
    /// The subject lies within the clip: some point off the edges is filled by the subject, and each such point by the
    /// clip too.
    pub within: bool,
    /// The clip lies so within the subject.
    pub covers: bool,
}

/// Returns the relations of the interiors of subject and clip, told by their merged edges with balanced counts. Nothing
/// is rounded: each answer is that of the contours as given. The error is that memory is refused.
pub fn interior_relations<I: ExactInt, C: EdgeCount, A: Allocator + Clone>(
    alloc: A,
    edges: &[CountedEdge<I, C>],
    rule: FillRule,
) -> Result<InteriorRelations, AllocError>
    requires held { All (IsHeld I.limit) (plain_edges I.whole C.counts edges.now) }
    requires ascending { IsAscending (plain_edges I.whole C.counts edges.now) }
    requires balanced { HasBalancedCounts (plain_edges I.whole C.counts edges.now) }
    ensures ok { IfOk result (λ r. (content : _) → IsMerged content (plain_edges I.whole C.counts edges.now)
        → AreInteriorRelations (is_filled rule) content r) }
{
    let found = find_meetings(alloc.clone()?, edges)?;
    let sides = find_sides(alloc, edges, &found, rule)?;
    let told = found_in(&sides.pieces);
    Ok(told.relations())
}

/// How a subject and a clip meet, told by the pieces of their merged edges.
#[derive(Debug, Clone, Copy, PartialEq, Eq)]
pub struct Contacts {
    /// The relations of the interiors.
    pub interiors: InteriorRelations,
    /// Both shapes fill a side of some piece.
    pub beside_piece: bool,
    /// No piece is so, but at some place a border of the subject alone ends, and a border of the clip alone.
    pub in_points: bool,
}

/// Returns how subject and clip meet, told by their merged edges with balanced counts. Nothing is rounded. Where edges
/// of both cross, it walks few edges. The error is that memory is refused.
pub fn find_contacts<I: ExactInt, C: EdgeCount, A: Allocator + Clone>(
    alloc: A,
    edges: &[CountedEdge<I, C>],
    rule: FillRule,
) -> Result<Contacts, AllocError>
    requires held { All (IsHeld I.limit) (plain_edges I.whole C.counts edges.now) }
    requires ascending { IsAscending (plain_edges I.whole C.counts edges.now) }
    requires balanced { HasBalancedCounts (plain_edges I.whole C.counts edges.now) }
    ensures ok { IfOk result (AreContacts (is_filled rule) (plain_edges I.whole C.counts edges.now)) }
{
    match crossing_contacts(alloc.clone()?, edges, rule)? {
        Some(contacts) => Ok(contacts),
        None => walked_contacts(alloc, edges, rule),
    }
}

// Returns how subject and clip meet, told by the pieces of all edges.
fn walked_contacts<I: ExactInt, C: EdgeCount, A: Allocator + Clone>(
    alloc: A,
    edges: &[CountedEdge<I, C>],
    rule: FillRule,
) -> Result<Contacts, AllocError>
    requires held { All (IsHeld I.limit) (plain_edges I.whole C.counts edges.now) }
    requires ascending { IsAscending (plain_edges I.whole C.counts edges.now) }
    requires balanced { HasBalancedCounts (plain_edges I.whole C.counts edges.now) }
    ensures ok { IfOk result (AreContacts (is_filled rule) (plain_edges I.whole C.counts edges.now)) }
{
    let found = find_meetings(alloc.clone()?, edges)?;
    let sides = find_sides(alloc, edges, &found, rule)?;
    let told = found_in(&sides.pieces);
    let interiors = told.relations();
    if some_pass(&sides.pieces, SideTest::BothShapes) {
        return Ok(Contacts {
            interiors,
            beside_piece: true,
            in_points: false,
        });
    }
    let in_points = has_shared_place(&found.starts, &found.met, &sides.places);
    Ok(Contacts {
        interiors,
        beside_piece: false,
        in_points,
    })
}

// What is found of the filled sides of pieces.
#[derive(Clone, Copy)]
pub(crate) struct Found {
    // Both shapes fill the same side of some piece.
    has_common_side: bool,
    // The subject fills a side of some piece.
    has_subject: bool,
    // It fills one that the clip does not fill.
    subject_pokes_out: bool,
    // The clip fills a side of some piece.
    has_clip: bool,
    // It fills one that the subject does not fill.
    clip_pokes_out: bool,
}

impl Found {
    // Returns the relations that it tells.
    fn relations(self) -> InteriorRelations
        ensures { result ≡ relations_by self }
    {
        InteriorRelations {
            interiors_intersect: self.has_common_side,
            within: self.has_subject && !self.subject_pokes_out,
            covers: self.has_clip && !self.clip_pokes_out,
        }
    }

    // Returns how the shapes meet where their borders cross: both fill a side, and each fills one that the other does
    // not.
    pub(crate) fn crossing(self) -> Option<Contacts>
        ensures { IfSome result (IsCrossing self) }
    {
        if !(self.has_common_side && self.subject_pokes_out && self.clip_pokes_out) {
            return None;
        }
        Some(Contacts {
            interiors: InteriorRelations {
                interiors_intersect: true,
                within: false,
                covers: false,
            },
            beside_piece: true,
            in_points: false,
        })
    }
}

// Tests the sides of the list.
pub(crate) fn found_in(sides: &[FilledSides]) -> Found
    ensures { IsFoundOf sides.now result }
{
    Found {
        has_common_side: some_pass(sides, SideTest::CommonSide),
        has_subject: some_pass(sides, SideTest::SubjectSide),
        subject_pokes_out: some_pass(sides, SideTest::SubjectOutside),
        has_clip: some_pass(sides, SideTest::ClipSide),
        clip_pokes_out: some_pass(sides, SideTest::ClipOutside),
    }
}
