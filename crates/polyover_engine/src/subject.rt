//! The subject of an input as one shape, with each contour resolved.

ghost use Rattle.std.specs.Prelude.{◌≡◌, [], ◌∷◌, ◌++◌, MatchResult, All, OnOk};
ghost use Rattle.overlay_geom.specs.Points.{AllInRange};
ghost use Rattle.overlay_geom.specs.Paths.{paths_of_shape};
ghost use Rattle.overlay_geom.specs.Numbers.{greatest_of_64_bits};
ghost use Rattle.polyover_text.specs.Grammar.{contour_paths};
ghost use Rattle.polyover_text.specs.Points.{points_at};
ghost use Rattle.polyover_text.specs.Statements.{contour_at, contours_at};
ghost use Rattle.polyover_engine.specs.Subjects.{IsSubject, HasNoSubject, AddsContour, IsNotAdded};

use crate::exit::Exit;
use i_overlay::overlay::ShapeType;
use overlay_geom::path::IntShape;
use overlay_geom::point::IntPoint;
use overlay_relate::resolved::is_resolved_in;
use polyover_text::figures::NumberedContour;
use std::alloc::{AllocError, Allocator};

/// The contours of the subject, in order, as one shape. The points are in the coordinate range. Ends with
/// `BadInput` at the line of the first one that is not resolved, and with `Refused(Memory)`.
pub(crate) fn subject<A: Allocator + Copy>(
    alloc: A,
    contours: &[NumberedContour<A>],
) -> Result<IntShape<i64, A>, Exit>
    requires { All (λ c. AllInRange greatest_of_64_bits c.points) (contour_paths (contours_at contours.now)) }
    ensures { MatchResult result
        (λ shape. IsSubject (contours_at contours.now) (paths_of_shape (λ z. z) shape.items))
        (λ exit. HasNoSubject (contours_at contours.now) exit) }
{
    let mut shape = Vec::new(alloc);
    for given in contours {
        add(alloc, &mut shape, given)?;
    }
    Ok(shape)
}

// Adds the contour, if it is of the subject, to the shape.
fn add<A: Allocator + Copy>(
    alloc: A,
    shape: &mut IntShape<i64, A>,
    given: &NumberedContour<A>,
) -> Result<(), Exit>
    requires { AllInRange greatest_of_64_bits (contour_at given.now).path.points }
    ensures { MatchResult result
        (λ _. AddsContour (contour_at given.now) (paths_of_shape (λ z. z) shape.old.items)
        (paths_of_shape (λ z. z) shape.new.items))
        (λ exit. IsNotAdded (contour_at given.now) exit) }
{
    let contour = &given.contour;
    match contour.shape_type {
        ShapeType::Clip => Ok(()),
        ShapeType::Subject => {
            let is_resolved = is_resolved_in(alloc, &contour.points)?;
            if !is_resolved {
                return Err(Exit::BadInput(given.line));
            }
            push_copy(alloc, shape, &contour.points)?;
            Ok(())
        }
    }
}

// Adds a contour with these points to the shape.
fn push_copy<A: Allocator + Copy>(
    alloc: A,
    shape: &mut IntShape<i64, A>,
    points: &[IntPoint<i64>],
) -> Result<(), AllocError>
    ensures ok { OnOk result (paths_of_shape (λ z. z) shape.new.items
        ≡ paths_of_shape (λ z. z) shape.old.items ++ points_at points.now ∷ []) }
{
    let mut contour = Vec::new(alloc);
    contour.extend_from_slice(points)?;
    shape.push(contour)?;
    Ok(())
}
