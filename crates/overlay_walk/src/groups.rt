//! The cut with groups. Groups are the orbits by the hand of the filled side. Each group is cut once more by the hand
//! of the empty side, into contours that visit no point twice.

ghost use Rattle.std.specs.Prelude.{◌≡◌, [], not, filter, All, IfOk};
ghost use Rattle.std.specs.List.{flat_map};
ghost use Rattle.overlay_plane.specs.Alternates.{Alternates};
ghost use Rattle.overlay_plane.specs.BesideOrbits.{HasEachOnce};
ghost use Rattle.overlay_plane.specs.Binding.{is_hole};
ghost use Rattle.overlay_plane.specs.Contours.{IsCutInto};
ghost use Rattle.overlay_plane.specs.MinimumArea.{reaches};
ghost use Rattle.overlay_plane.specs.RoledContours.{IsCutInGroups};
ghost use Rattle.overlay_walk.specs.Steps.{filled_hand, plain_hand, plain_steps, IsLong};
ghost use Rattle.overlay_walk.specs.Walks.{plain_walks, IsOwnOrbit};
ghost use Rattle.overlay_walk.specs.GroupedContours.{plain_contours, AreCutFromGroups, AddsCutGroup};

use crate::area::large_walks;
use crate::contour::Contour;
use crate::contour_cut::{cut_into_contours, empty_hand, filled_hand};
use crate::filled_side::is_hole;
use crate::group_contours::{push_free_holes, push_group, push_outline};
use crate::hand::{Hand, HandRule};
use crate::open_steps::OpenSteps;
use crate::points_once::leave_each_point_once;
use crate::step::Step;
use overlay_geom::number::{IntNumber, UIntNumber, WideIntNumber};
use overlay_geom::options::ContourDirection;
use std::alloc::{AllocError, Allocator};

/// Walks all steps left, in groups: orbits by the hand of the filled side. This is the left hand where the direction is
/// counterclockwise. The steps alternate round every node.
///
/// A group that begins with an edge filled below belongs to an outline. It is walked again by the hand of the empty
/// side, from the same start; the other walks in it are holes of that shape. The steps of all other groups together are
/// walked by that hand last. Their walks are holes whose shape is still to be found.
///
/// Returns the contours with three points or more that reach the minimum area, a hole of an outline's group only with
/// its outline. Also returns the memory of the steps, as a list without steps.
pub fn cut_in_groups<I: IntNumber, A: Allocator + Clone>(
    alloc: A,
    mut steps: OpenSteps<I, A>,
    direction: ContourDirection,
    min_output_area: I::WideUInt,
) -> Result<(Vec<Contour<I, A>, A>, Vec<Step<I>, A>), AllocError>
    requires alternate { Alternates (plain_steps I.whole steps) }
    requires once { HasEachOnce (plain_steps I.whole steps) }
    requires long { All (IsLong I.limit) (plain_steps I.whole steps) }
    ensures cut { IfOk result (λ r. IsCutInGroups (filled_hand direction)
        (λ w. reaches I.Wide.width (I.WideUInt.natural min_output_area) w) (plain_steps I.whole steps)
        (plain_contours I.whole r.0.items)) }
    ensures room { IfOk result (λ r. r.1.items ≡ []) }
{
    let rule = HandRule::Always(filled_hand(direction));
    let groups = cut_into_contours(alloc.clone()?, &mut steps, rule)?;
    // (the marks and places of the steps go before the groups are cut)
    let room = steps.into_room();
    let (outline_groups, hole_steps) = split_groups(alloc.clone()?, groups, direction)?;
    let empty = empty_hand(direction);
    let mut contours = cut_outlines(alloc.clone()?, outline_groups, empty, min_output_area)?;
    let others = cut_again(alloc.clone()?, hole_steps, empty)?;
    push_free_holes(&mut contours, large_walks(alloc, others, min_output_area)?)?;
    Ok((contours, room))
}

// Returns the groups that are outlines, and the steps of all groups that are holes.
fn split_groups<I: IntNumber, A: Allocator + Clone>(
    alloc: A,
    groups: Vec<Vec<Step<I>, A>, A>,
    direction: ContourDirection,
) -> Result<(Vec<Vec<Step<I>, A>, A>, Vec<Step<I>, A>), AllocError>
    ensures outlines { IfOk result (λ r. r.0.items
        ≡ filter (λ g. not (is_hole (filled_hand direction) (plain_steps I.whole g.items))) groups.items) }
    ensures holes { IfOk result (λ r. r.1.items ≡ flat_map (λ g. g.items)
        (filter (λ g. is_hole (filled_hand direction) (plain_steps I.whole g.items)) groups.items)) }
{
    let mut outline_groups = Vec::new(alloc.clone()?);
    let mut hole_steps = Vec::new(alloc);
    for group in groups {
        if is_hole(&group, direction) {
            hole_steps.extend_from_slice(&group)?;
        } else {
            outline_groups.push(group)?;
        }
    }
    Ok((outline_groups, hole_steps))
}

// Returns the contours of groups by a hand: each outline that reaches the minimum area, with the holes of its group
// that reach it. Outlines are numbered from 0. Each group is an orbit from its start.
fn cut_outlines<I: IntNumber, A: Allocator + Clone>(
    alloc: A,
    groups: Vec<Vec<Step<I>, A>, A>,
    hand: Hand,
    min_output_area: I::WideUInt,
) -> Result<Vec<Contour<I, A>, A>, AllocError>
    requires alternate { All Alternates (plain_walks I.whole groups.items) }
    requires once { All HasEachOnce (plain_walks I.whole groups.items) }
    requires long { All (All (IsLong I.limit)) (plain_walks I.whole groups.items) }
    requires own { All IsOwnOrbit (plain_walks I.whole groups.items) }
    ensures cut { IfOk result (λ cs. AreCutFromGroups (plain_hand hand)
        (λ w. reaches I.Wide.width (I.WideUInt.natural min_output_area) w) (plain_walks I.whole groups.items)
        (plain_contours I.whole cs.items)) }
{
    let mut contours = Vec::new(alloc.clone()?);
    let mut number = 0;
    for group in groups {
        let alloc = alloc.clone()?;
        let is_kept = push_cut(alloc, &mut contours, number, group, hand, min_output_area)?;
        if is_kept {
            number += 1;
        }
    }
    Ok(contours)
}

// Adds the contours of a group by a hand, if its outline reaches the minimum area. Returns whether it does. The outline
// gets the number. The group is an orbit from its start: where it visits no point twice, it is its one walk by either
// hand.
fn push_cut<I: IntNumber, A: Allocator + Clone>(
    alloc: A,
    contours: &mut Vec<Contour<I, A>, A>,
    number: usize,
    group: Vec<Step<I>, A>,
    hand: Hand,
    min_output_area: I::WideUInt,
) -> Result<bool, AllocError>
    requires alternate { Alternates (plain_steps I.whole group.items) }
    requires once { HasEachOnce (plain_steps I.whole group.items) }
    requires long { All (IsLong I.limit) (plain_steps I.whole group.items) }
    requires own { IsOwnOrbit (plain_steps I.whole group.items) }
    ensures added { IfOk result (λ is_kept. AddsCutGroup (plain_hand hand)
        (λ w. reaches I.Wide.width (I.WideUInt.natural min_output_area) w) number (plain_steps I.whole group.items)
        is_kept (plain_contours I.whole contours.old.items) (plain_contours I.whole contours.new.items)) }
{
    let is_simple = leave_each_point_once(alloc.clone()?, &group)?;
    if is_simple {
        let is_kept = push_outline(contours, number, group, min_output_area)?;
        return Ok(is_kept);
    }
    let walks = cut_again(alloc.clone()?, group, hand)?;
    let is_kept = push_group(alloc, contours, number, walks, min_output_area)?;
    Ok(is_kept)
}

// Returns the walks of steps by a hand.
fn cut_again<I: IntNumber, A: Allocator + Clone>(
    alloc: A,
    steps: Vec<Step<I>, A>,
    hand: Hand,
) -> Result<Vec<Vec<Step<I>, A>, A>, AllocError>
    requires alternate { Alternates (plain_steps I.whole steps.items) }
    requires once { HasEachOnce (plain_steps I.whole steps.items) }
    requires long { All (IsLong I.limit) (plain_steps I.whole steps.items) }
    ensures cut { IfOk result (λ ws. IsCutInto (λ s. plain_hand hand) (plain_steps I.whole steps.items)
        (plain_walks I.whole ws.items)) }
    ensures long { IfOk result (λ ws. All (All (IsLong I.limit)) (plain_walks I.whole ws.items)) }
{
    let mut open = OpenSteps::new(steps)?;
    cut_into_contours(alloc, &mut open, HandRule::Always(hand))
}
