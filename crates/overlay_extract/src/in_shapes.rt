//! Contours in the order of their shapes.

ghost use Rattle.std.specs.Prelude.{◌≡◌, ◌++◌, ◌<◌, length, map, All, IfOk, OnOk};
ghost use Rattle.overlay_plane.specs.PlacedContours.{walk_at, walks_at};
ghost use Rattle.overlay_plane.specs.RoledContours.{group_contours_from};
ghost use Rattle.overlay_walk.specs.GroupedContours.{plain_contours, plain_role, contours_of_group};
ghost use Rattle.overlay_extract.specs.InShapes.{role_at, AreBegun};
ghost use Rattle.overlay_extract.specs.Places.{place_list, place_lists, AreInside};

use crate::binding::places::ShapePlaces;
use overlay_geom::number::IntNumber;
use overlay_walk::contour::{Contour, Role};
use std::alloc::{AllocError, Allocator};

/// Returns the contours at these places, shape by shape. The first contour of each shape is its outline, and the others
/// are holes of the outline's group.
pub fn in_shapes<I: IntNumber, A: Allocator + Clone>(
    alloc: A,
    contours: &[Contour<I, A>],
    places: &[ShapePlaces<A>],
) -> Result<Vec<Contour<I, A>, A>, AllocError>
    requires inside { AreInside (length (plain_contours I.whole contours.now)) (place_lists places.now) }
    requires begun { AreBegun (place_lists places.now) }
    ensures ok { IfOk result (λ v. plain_contours I.whole v.items
        ≡ group_contours_from 0 (walks_at (plain_contours I.whole contours.now) (place_lists places.now))) }
{
    let mut ordered = Vec::new(alloc.clone()?);
    for number in 0..places.len() {
        push_shape(&alloc, &mut ordered, contours, &places[number], number)?;
    }
    Ok(ordered)
}

// Adds the contours at these places, as those of the shape with this number.
fn push_shape<I: IntNumber, A: Allocator + Clone>(
    alloc: &A,
    ordered: &mut Vec<Contour<I, A>, A>,
    contours: &[Contour<I, A>],
    places: &ShapePlaces<A>,
    number: usize,
) -> Result<(), AllocError>
    requires inside { All (λ k. k < length (plain_contours I.whole contours.now)) (place_list places.now) }
    ensures pushed { OnOk result (plain_contours I.whole ordered.new.items ≡ plain_contours I.whole ordered.old.items
        ++ contours_of_group number (map (walk_at (plain_contours I.whole contours.now)) (place_list places.now))) }
{
    for i in 0..places.count() {
        let place = places.place(i);
        let mut steps = Vec::new(alloc.clone()?);
        steps.extend_from_slice(&contours[place].steps)?;
        let role = role_at(number, i);
        ordered.push(Contour { role, steps })?;
    }
    Ok(())
}

// Returns the role of the contour at this place in the shape with this number: the outline comes first.
fn role_at(number: usize, place: usize) -> Role
    ensures { plain_role result ≡ role_at number place }
{
    if place == 0 {
        Role::Outline(number)
    } else {
        Role::OwnHole(number)
    }
}
