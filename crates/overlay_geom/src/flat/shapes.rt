//! Shapes whose points are held in a single list.

ghost use Rattle.std.specs.Prelude.{◌≡◌, ◌≤◌, ◌++◌, ◌∷◌, [], length, vec_capacity};
ghost use Rattle.std.specs.Prelude.{IfOk, IsOk, OnOk, IsOkUnless};
ghost use Rattle.overlay_geom.specs.Flat.{range_behind, paths_in, shapes_in};
ghost use Rattle.overlay_geom.specs.FlatShapes.{ArePathsAdded, AreShapesPacked};
ghost use Rattle.overlay_geom.specs.Paths.{paths_of_shape, plain_shapes};

use crate::error::OverlayError;
use crate::flat::{copied, copied_ranges, part_in};
use crate::number::IntNumber;
use crate::path::{IntContour, IntShape, IntShapes};
use crate::point::IntPoint;
use std::alloc::{AllocError, Allocator};
use std::ops::Range;

/// Shapes whose points are held in a single list: each contour is a range of the points, and each shape a range of the
/// contours. A range that is not inside its list stands for an empty contour or shape.
#[derive(Drop)]
#[derive_where(Debug, PartialEq, Eq; I)]
pub struct FlatShapesBuffer<I, A: Allocator> {
    /// The points of all contours.
    pub points: Vec<IntPoint<I>, A>,
    /// The range of each contour's points, contour by contour.
    pub contour_ranges: Vec<Range<usize>, A>,
    /// The range of each shape's contours, shape by shape.
    pub shape_ranges: Vec<Range<usize>, A>,
}

impl<I: IntNumber, A: Allocator + Clone> FlatShapesBuffer<I, A> {
    /// Makes a buffer without shapes, which will take its memory from the allocator. It takes none yet. It is refused
    /// only where a copy of the allocator is refused.
    pub fn default(alloc: A) -> Result<Self, OverlayError>
        ensures points { IfOk result (λ b. b.points.items ≡ []) }
        ensures contour_ranges { IfOk result (λ b. b.contour_ranges.items ≡ []) }
        ensures shape_ranges { IfOk result (λ b. b.shape_ranges.items ≡ []) }
        ensures succeeds { A.is_infallible alloc → IsOk result }
        ensures only { IsOkUnless result OverlayError.Memory }
    {
        let points = Vec::new(alloc.clone()?);
        let contour_ranges = Vec::new(alloc.clone()?);
        Ok(FlatShapesBuffer {
            points,
            contour_ranges,
            shape_ranges: Vec::new(alloc),
        })
    }

    /// Makes a buffer without shapes, with room for `points` points, `contours` contours and `shapes` shapes.
    pub fn with_capacity(
        alloc: A,
        points: usize,
        contours: usize,
        shapes: usize,
    ) -> Result<Self, OverlayError>
        ensures points { IfOk result (λ b. b.points.items ≡ []) }
        ensures contour_ranges { IfOk result (λ b. b.contour_ranges.items ≡ []) }
        ensures shape_ranges { IfOk result (λ b. b.shape_ranges.items ≡ []) }
        ensures points_fit { IfOk result (λ b. points ≤ vec_capacity b.points) }
        ensures contours_fit { IfOk result (λ b. contours ≤ vec_capacity b.contour_ranges) }
        ensures shapes_fit { IfOk result (λ b. shapes ≤ vec_capacity b.shape_ranges) }
        ensures only { IsOkUnless result OverlayError.Memory }
    {
        let points = Vec::with_capacity(alloc.clone()?, points)?;
        let contour_ranges = Vec::with_capacity(alloc.clone()?, contours)?;
        let shape_ranges = Vec::with_capacity(alloc, shapes)?;
        Ok(FlatShapesBuffer {
            points,
            contour_ranges,
            shape_ranges,
        })
    }

    /// Packs the shapes into a buffer: contours and points in their order, without gaps. So
    /// [`to_shapes`](Self::to_shapes) gives the shapes back. The only refusal is `Memory`.
    pub fn from_shapes<B: Allocator>(
        alloc: A,
        shapes: &[IntShape<I, B>],
    ) -> Result<Self, OverlayError>
        ensures shapes { IfOk result (λ b. shapes_in I.whole b.points.items b.contour_ranges.items b.shape_ranges.items
            ≡ plain_shapes I.whole shapes.now) }
        ensures packed { IfOk result
            (λ b. AreShapesPacked b.points.items b.contour_ranges.items b.shape_ranges.items) }
        ensures only { IsOkUnless result OverlayError.Memory }
    {
        let mut buffer = Self::default(alloc)?;
        for shape in shapes {
            buffer.push_shape(shape)?;
        }
        Ok(buffer)
    }

    /// Returns a copy of the buffer, with the same points and ranges.
    pub fn clone(&self) -> Result<Self, OverlayError>
        ensures points { IfOk result (λ b. b.points.items ≡ self.now.points.items) }
        ensures contour_ranges { IfOk result (λ b. b.contour_ranges.items ≡ self.now.contour_ranges.items) }
        ensures shape_ranges { IfOk result (λ b. b.shape_ranges.items ≡ self.now.shape_ranges.items) }
        ensures only { IsOkUnless result OverlayError.Memory }
    {
        let alloc = self.points.allocator();
        let points = copied(alloc.clone()?, &self.points)?;
        let contour_ranges = copied_ranges(alloc.clone()?, &self.contour_ranges)?;
        let shape_ranges = copied_ranges(alloc.clone()?, &self.shape_ranges)?;
        Ok(FlatShapesBuffer {
            points,
            contour_ranges,
            shape_ranges,
        })
    }

    /// Returns the shapes as lists of contours, in the order of the ranges. Each contour has the points of its range.
    pub fn to_shapes(&self) -> Result<IntShapes<I, A>, OverlayError>
        ensures ok { IfOk result (λ ss. plain_shapes I.whole ss.items
            ≡ shapes_in I.whole self.now.points.items self.now.contour_ranges.items self.now.shape_ranges.items) }
        ensures only { IsOkUnless result OverlayError.Memory }
    {
        Ok(shapes_of(
            self.points.allocator(),
            &self.points,
            &self.contour_ranges,
            &self.shape_ranges,
        )?)
    }
}

impl<I: IntNumber, A: Allocator> FlatShapesBuffer<I, A> {
    // Adds `shape` as the last shape. On a refusal some of its contours may stay behind those already held.
    fn push_shape<B: Allocator>(&mut self, shape: &[IntContour<I, B>]) -> Result<(), AllocError>
        ensures contours { OnOk result (ArePathsAdded I.whole self.old.points.items self.old.contour_ranges.items
            (paths_of_shape I.whole shape.now) self.new.points.items self.new.contour_ranges.items) }
        ensures shape { OnOk result (self.new.shape_ranges.items ≡ self.old.shape_ranges.items ++ record
            { start = length self.old.contour_ranges.items; end = length self.new.contour_ranges.items } ∷ []) }
    {
        let start = self.contour_ranges.len();
        push_contours(&mut self.points, &mut self.contour_ranges, shape)?;
        self.shape_ranges.push(start..self.contour_ranges.len())?;
        Ok(())
    }
}

// Appends the points of all contours to `points`, and the range of each contour to `ranges`. On a refusal some of them
// may stay.
fn push_contours<I: IntNumber, A: Allocator, B: Allocator>(
    points: &mut Vec<IntPoint<I>, A>,
    ranges: &mut Vec<Range<usize>, A>,
    contours: &[IntContour<I, B>],
) -> Result<(), AllocError>
    ensures added { OnOk result (ArePathsAdded I.whole points.old.items ranges.old.items
        (paths_of_shape I.whole contours.now) points.new.items ranges.new.items) }
{
    for contour in contours {
        push_contour(points, ranges, contour)?;
    }
    Ok(())
}

// Appends the contour's points to `points`, and their range to `ranges`. On a refusal the points may stay.
fn push_contour<I: IntNumber, A: Allocator>(
    points: &mut Vec<IntPoint<I>, A>,
    ranges: &mut Vec<Range<usize>, A>,
    contour: &[IntPoint<I>],
) -> Result<(), AllocError>
    ensures points { OnOk result (points.new.items ≡ points.old.items ++ contour.now) }
    ensures ranges { OnOk result (ranges.new.items
        ≡ ranges.old.items ++ range_behind points.old.items contour.now ∷ []) }
{
    let start = points.len();
    points.extend_from_slice(contour)?;
    ranges.push(start..points.len())?;
    Ok(())
}

// Returns a contour for each range, with the points in that range.
fn contours_of<I: IntNumber, A: Allocator + Clone>(
    alloc: &A,
    points: &[IntPoint<I>],
    ranges: &[Range<usize>],
) -> Result<IntShape<I, A>, AllocError>
    ensures ok { IfOk result (λ s. paths_of_shape I.whole s.items ≡ paths_in I.whole points.now ranges.now) }
{
    let mut contours = Vec::new(alloc.clone()?);
    for range in ranges {
        let contour = copied(alloc.clone()?, part_in(points, range))?;
        contours.push(contour)?;
    }
    Ok(contours)
}

// Returns a shape for each range of contours; each contour is a range of the points.
fn shapes_of<I: IntNumber, A: Allocator + Clone>(
    alloc: &A,
    points: &[IntPoint<I>],
    contours: &[Range<usize>],
    ranges: &[Range<usize>],
) -> Result<IntShapes<I, A>, AllocError>
    ensures ok { IfOk result (λ ss. plain_shapes I.whole ss.items
        ≡ shapes_in I.whole points.now contours.now ranges.now) }
{
    let mut shapes = Vec::new(alloc.clone()?);
    for range in ranges {
        let shape = contours_of(alloc, points, part_in(contours, range))?;
        shapes.push(shape)?;
    }
    Ok(shapes)
}
