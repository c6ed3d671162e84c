//! The places of contours in the shapes to which they are bound.

ghost use Rattle.std.specs.Prelude.{◌≡◌, ◌∷◌, [], ◌++◌, ◌<◌, length, slice_index_or, map, filter, All};
ghost use Rattle.std.specs.Prelude.{IfOk, IfSome, OnOk};
ghost use Rattle.overlay_plane.specs.BoundContours.{contours_bound};
ghost use Rattle.overlay_plane.specs.PlacedContours.{walks_at, CanBePlaced, ArePlaced};
ghost use Rattle.overlay_plane.specs.RoledContours.{is_outline};
ghost use Rattle.overlay_walk.specs.GroupedContours.{plain_contours, plain_role};
ghost use Rattle.overlay_extract.specs.Places.{place_list, place_lists, number_as, with_place};
ghost use Rattle.overlay_extract.specs.Places.{AreInside, HasHolesAdded};

use crate::binding::known_shapes::shape_count;
use overlay_geom::number::IntNumber;
use overlay_walk::contour::{Contour, Role};
use std::alloc::{AllocError, Allocator};

/// The places of a shape's contours among all contours.
#[derive(Drop)]
pub struct ShapePlaces<A: Allocator> {
    /// The place of its outline.
    pub outline: usize,
    /// The places of its holes.
    pub holes: Vec<usize, A>,
}

impl<A: Allocator> ShapePlaces<A> {
    /// Returns the number of the shape's contours.
    pub fn count(&self) -> usize
        ensures { result ≡ length (place_list self.now) }
    {
        self.holes.len() + 1
    }

    /// Returns the place of the contour with a number, the outline's for 0.
    pub fn place(&self, number: usize) -> usize
        requires { number < length (place_list self.now) }
        ensures { result ≡ slice_index_or (place_list self.now) number 0 }
    {
        if number == 0 {
            self.outline
        } else {
            self.holes[number - 1]
        }
    }
}

/// A kind of holes of a shape.
#[derive(Clone, Copy)]
pub enum Holes {
    /// The holes of its outline's own group.
    OfGroups,
    /// The holes for which the shape is found.
    Found,
}

/// Returns for each shape, in the order of the outlines, the places of its contours among all contours. The outline
/// comes first, then the holes of its group, then the holes for which the shape is found, each kind in order. A hole
/// without a shape is left out.
pub fn shape_places<I: IntNumber, A: Allocator + Clone>(
    alloc: A,
    contours: &[Contour<I, A>],
    found: &[Option<usize>],
) -> Result<Vec<ShapePlaces<A>, A>, AllocError>
    requires { CanBePlaced (plain_contours I.whole contours.now) found.now }
    ensures placed { IfOk result
        (λ v. ArePlaced (plain_contours I.whole contours.now) found.now (place_lists v.items)) }
{
    let mut places = outline_places(alloc, contours)?;
    add_holes(&mut places, contours, found, Holes::OfGroups)?;
    add_holes(&mut places, contours, found, Holes::Found)?;
    Ok(places)
}

// Returns for each outline its place, without holes.
fn outline_places<I: IntNumber, A: Allocator + Clone>(
    alloc: A,
    contours: &[Contour<I, A>],
) -> Result<Vec<ShapePlaces<A>, A>, AllocError>
    ensures inside { IfOk result
        (λ v. AreInside (length (plain_contours I.whole contours.now)) (place_lists v.items)) }
    ensures begun { IfOk result (λ v. walks_at (plain_contours I.whole contours.now) (place_lists v.items) ≡
        map (λ c. c.steps ∷ []) (filter (λ c. is_outline c.role) (plain_contours I.whole contours.now))) }
{
    let mut places = Vec::with_capacity(alloc.clone()?, shape_count(contours))?;
    for i in 0..contours.len() {
        if contours[i].role.is_outline() {
            push_alone(alloc.clone()?, &mut places, i)?;
        }
    }
    Ok(places)
}

// Adds a shape whose outline has this place, without holes.
fn push_alone<A: Allocator>(
    alloc: A,
    places: &mut Vec<ShapePlaces<A>, A>,
    place: usize,
) -> Result<(), AllocError>
    ensures ok { OnOk result
        (place_lists places.new.items ≡ place_lists places.old.items ++ (place ∷ []) ∷ []) }
{
    let holes = Vec::new(alloc);
    places.push(ShapePlaces {
        outline: place,
        holes,
    })?;
    Ok(())
}

// Adds the places of these holes to those of their shapes.
fn add_holes<I: IntNumber, A: Allocator>(
    places: &mut Vec<ShapePlaces<A>, A>,
    contours: &[Contour<I, A>],
    found: &[Option<usize>],
    holes: Holes,
) -> Result<(), AllocError>
    requires counted { length found.now ≡ length contours.now }
    requires inside { AreInside (length (plain_contours I.whole contours.now)) (place_lists places.old.items) }
    requires numbered { All (λ b. IfSome (number_as holes b.contour.role b.shape)
        (λ n. n < length places.old.items)) (contours_bound (plain_contours I.whole contours.now) found.now) }
    ensures added { OnOk result (HasHolesAdded holes (plain_contours I.whole contours.now)
        (contours_bound (plain_contours I.whole contours.now) found.now)
        (place_lists places.old.items) (place_lists places.new.items)) }
{
    for i in 0..contours.len() {
        let number = number_as(contours[i].role, found[i], holes);
        push_place(places, number, i)?;
    }
    Ok(())
}

// Returns the number of the shape in which a contour is a hole of this kind, if it is one.
fn number_as(role: Role, found: Option<usize>, holes: Holes) -> Option<usize>
    ensures { result ≡ number_as holes (plain_role role) found }
{
    match (holes, role) {
        (Holes::OfGroups, Role::OwnHole(number)) => Some(number),
        (Holes::Found, Role::FreeHole) => found,
        _ => None,
    }
}

// Adds the place of a hole to the shape with this number, if there is a number.
fn push_place<A: Allocator>(
    places: &mut Vec<ShapePlaces<A>, A>,
    number: Option<usize>,
    place: usize,
) -> Result<(), AllocError>
    requires { IfSome number (λ n. n < length places.old.items) }
    ensures ok { OnOk result
        (place_lists places.new.items ≡ with_place number place (place_lists places.old.items)) }
{
    match number {
        Some(number) => {
            places[number].holes.push(place)?;
            Ok(())
        }
        None => Ok(()),
    }
}
