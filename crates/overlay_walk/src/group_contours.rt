//! Contours made of the walks of groups.

ghost use Rattle.std.specs.Prelude.{◌≡◌, [], ◌∷◌, ◌++◌, map, All, IfOk, OnOk};
ghost use Rattle.overlay_plane.specs.MinimumArea.{reaches};
ghost use Rattle.overlay_plane.specs.RoledContours.{hole_to_bind};
ghost use Rattle.overlay_walk.specs.GroupedContours.{plain_contours, first_reaches, contours_of_group, AddsGroup};
ghost use Rattle.overlay_walk.specs.Steps.{plain_steps, IsLong};
ghost use Rattle.overlay_walk.specs.Walks.{plain_walks};

use crate::area::{large_walks, reaches};
use crate::contour::{Contour, Role};
use crate::step::Step;
use overlay_geom::number::{IntNumber, UIntNumber, WideIntNumber};
use std::alloc::{AllocError, Allocator};

/// Adds a walk as the outline of the shape with this number, if it reaches the minimum area. Returns whether it does.
pub(crate) fn push_outline<I: IntNumber, A: Allocator>(
    contours: &mut Vec<Contour<I, A>, A>,
    number: usize,
    steps: Vec<Step<I>, A>,
    min_output_area: I::WideUInt,
) -> Result<bool, AllocError>
    requires { All (IsLong I.limit) (plain_steps I.whole steps.items) }
    ensures pushed { IfOk result (λ is_kept. AddsGroup
        (λ w. reaches I.Wide.width (I.WideUInt.natural min_output_area) w) number (plain_steps I.whole steps.items ∷ [])
        is_kept (plain_contours I.whole contours.old.items) (plain_contours I.whole contours.new.items)) }
{
    let is_kept = reaches(&steps, min_output_area);
    if is_kept {
        contours.push(Contour {
            role: Role::Outline(number),
            steps,
        })?;
    }
    Ok(is_kept)
}

/// Adds the walks of a group that reach the minimum area as contours, if its outline does, and returns whether it does.
/// The outline is the first walk, that of the shape with this number; the others are its holes.
pub(crate) fn push_group<I: IntNumber, A: Allocator + Clone>(
    alloc: A,
    contours: &mut Vec<Contour<I, A>, A>,
    number: usize,
    walks: Vec<Vec<Step<I>, A>, A>,
    min_output_area: I::WideUInt,
) -> Result<bool, AllocError>
    requires { All (All (IsLong I.limit)) (plain_walks I.whole walks.items) }
    ensures pushed { IfOk result (λ is_kept. AddsGroup
        (λ w. reaches I.Wide.width (I.WideUInt.natural min_output_area) w) number (plain_walks I.whole walks.items)
        is_kept (plain_contours I.whole contours.old.items) (plain_contours I.whole contours.new.items)) }
{
    let is_kept = first_reaches(&walks, min_output_area);
    if is_kept {
        let large = large_walks(alloc, walks, min_output_area)?;
        push_walks(contours, large, number)?;
    }
    Ok(is_kept)
}

// Returns whether there is a first walk and it reaches the minimum area.
fn first_reaches<I: IntNumber, A: Allocator>(
    walks: &[Vec<Step<I>, A>],
    min_output_area: I::WideUInt,
) -> bool
    requires { All (All (IsLong I.limit)) (plain_walks I.whole walks.now) }
    ensures { result ≡ first_reaches (λ w. reaches I.Wide.width (I.WideUInt.natural min_output_area) w)
        (plain_walks I.whole walks.now) }
{
    match walks {
        [] => false,
        [first, ..] => reaches(first, min_output_area),
    }
}

// Adds the walks of a group as contours: the outline of the shape with this number, and its holes.
fn push_walks<I: IntNumber, A: Allocator>(
    contours: &mut Vec<Contour<I, A>, A>,
    walks: Vec<Vec<Step<I>, A>, A>,
    number: usize,
) -> Result<(), AllocError>
    ensures pushed { OnOk result (plain_contours I.whole contours.new.items
        ≡ plain_contours I.whole contours.old.items ++ contours_of_group number (plain_walks I.whole walks.items)) }
{
    let mut role = Role::Outline(number);
    for steps in walks {
        contours.push(Contour { role, steps })?;
        role = Role::OwnHole(number);
    }
    Ok(())
}

/// Adds walks as holes whose shape is still to be found.
pub(crate) fn push_free_holes<I: IntNumber, A: Allocator>(
    contours: &mut Vec<Contour<I, A>, A>,
    walks: Vec<Vec<Step<I>, A>, A>,
) -> Result<(), AllocError>
    ensures pushed { OnOk result (plain_contours I.whole contours.new.items
        ≡ plain_contours I.whole contours.old.items ++ map hole_to_bind (plain_walks I.whole walks.items)) }
{
    for steps in walks {
        contours.push(Contour {
            role: Role::FreeHole,
            steps,
        })?;
    }
    Ok(())
}
