//! Contours whose points are held in a single list.

ghost use Rattle.std.specs.Prelude.{◌≡◌, ◌≤◌, ◌==◌, ◌++◌, ◌∷◌, [], length, vec_capacity};
ghost use Rattle.std.specs.Prelude.{IfOk, IsOk, OnOk, OnErr, IsOkUnless};
ghost use Rattle.std.specs.Borrow.{sem};
ghost use Rattle.overlay_geom.specs.Flat.{part_in, first_range, range_behind, paths_in, AreInside};
ghost use Rattle.overlay_geom.specs.FlatLends.{LendsFirst};
ghost use Rattle.overlay_geom.specs.Points.{plain_points};

use crate::error::OverlayError;
use crate::flat::{copied, copied_ranges, part_in, range_within};
use crate::number::IntNumber;
use crate::point::IntPoint;
use crate::resource::IntShapeResource;
use std::alloc::Allocator;
use std::ops::Range;

/// Contours whose points are held in a single list; each contour is a range of it. A range that is not inside the
/// points stands for an empty contour.
#[derive(Drop)]
#[derive_where(Debug, PartialEq, Eq; I)]
pub struct FlatContoursBuffer<I, A: Allocator> {
    /// The points of all contours.
    pub points: Vec<IntPoint<I>, A>,
    /// The range of each contour's points, contour by contour.
    pub ranges: Vec<Range<usize>, A>,
}

impl<I: IntNumber, A: Allocator + Clone> FlatContoursBuffer<I, A> {
    /// Makes a buffer without contours, which will take its memory from the allocator. It takes none yet. It is refused
    /// only where a copy of the allocator is refused.
    pub fn default(alloc: A) -> Result<Self, OverlayError>
        ensures points { IfOk result (λ b. b.points.items ≡ []) }
        ensures ranges { IfOk result (λ b. b.ranges.items ≡ []) }
        ensures succeeds { A.is_infallible alloc → IsOk result }
        ensures only { IsOkUnless result OverlayError.Memory }
    {
        let points = Vec::new(alloc.clone()?);
        Ok(FlatContoursBuffer {
            points,
            ranges: Vec::new(alloc),
        })
    }

    /// Returns a copy of the buffer, with the same points and ranges.
    pub fn clone(&self) -> Result<Self, OverlayError>
        ensures points { IfOk result (λ b. b.points.items ≡ self.now.points.items) }
        ensures ranges { IfOk result (λ b. b.ranges.items ≡ self.now.ranges.items) }
        ensures only { IsOkUnless result OverlayError.Memory }
    {
        let points = copied(self.points.allocator().clone()?, &self.points)?;
        let ranges = copied_ranges(self.ranges.allocator().clone()?, &self.ranges)?;
        Ok(FlatContoursBuffer { points, ranges })
    }
}

impl<I: IntNumber, A: Allocator> FlatContoursBuffer<I, A> {
    /// Returns whether there is exactly one range, inside the points or not.
    pub fn is_single_contour(&self) -> bool
        ensures { result ≡ (length self.now.ranges.items == 1) }
    {
        self.ranges.len() == 1
    }

    /// Returns the points of the first contour, or none if there is no contour.
    pub fn as_first_contour(&self) -> &[IntPoint<I>]
        ensures { result.now ≡ part_in self.now.points.items (first_range self.now.ranges.items) }
    {
        let first = self.first_range();
        part_in(&self.points, &first)
    }

    /// Lends the points of the first contour, to be written over; lends none if there is no contour.
    pub fn as_first_contour_mut(&mut self) -> &mut [IntPoint<I>]
        ensures* writes_back { sem 𝓛 (LendsFirst I.row A.row A.Allocator self.entry result) }
        ensures value { result.now ≡ part_in self.old.points.items (first_range self.old.ranges.items) }
    {
        let first = self.first_range();
        let within = range_within(&first, self.points.len());
        self.points.slice_mut(within)
    }

    /// Drops all contours, and takes room for `points` points and `contours` contours. The buffer is empty even if that
    /// is refused.
    pub fn clear_and_reserve(&mut self, points: usize, contours: usize) -> Result<(), OverlayError>
        ensures points { self.new.points.items ≡ [] }
        ensures ranges { self.new.ranges.items ≡ [] }
        ensures points_fit { OnOk result (points ≤ vec_capacity self.new.points) }
        ensures contours_fit { OnOk result (contours ≤ vec_capacity self.new.ranges) }
        ensures only { IsOkUnless result OverlayError.Memory }
    {
        self.points.clear();
        self.ranges.clear();
        self.points.reserve(points)?;
        self.ranges.reserve(contours)?;
        Ok(())
    }

    /// Adds `contour` as the last contour, behind the points already held. If all ranges were inside the points, they
    /// still are, and the contours are the earlier ones and `contour`. On a refusal the buffer stays as it is. The only
    /// refusal is `Memory`.
    pub fn add_contour(&mut self, contour: &[IntPoint<I>]) -> Result<(), OverlayError>
        ensures points { OnOk result (self.new.points.items ≡ self.old.points.items ++ contour.now) }
        ensures ranges { OnOk result (self.new.ranges.items
            ≡ self.old.ranges.items ++ range_behind self.old.points.items contour.now ∷ []) }
        ensures inside { OnOk result (AreInside (length self.old.points.items) self.old.ranges.items
            → AreInside (length self.new.points.items) self.new.ranges.items) }
        ensures paths { OnOk result (AreInside (length self.old.points.items) self.old.ranges.items
            → paths_in I.whole self.new.points.items self.new.ranges.items
            ≡ paths_in I.whole self.old.points.items self.old.ranges.items ++ plain_points I.whole contour.now ∷ []) }
        ensures same_points { OnErr result (self.new.points.items ≡ self.old.points.items) }
        ensures same_ranges { OnErr result (self.new.ranges.items ≡ self.old.ranges.items) }
        ensures only { IsOkUnless result OverlayError.Memory }
    {
        let start = self.points.len();
        self.points.extend_from_slice(contour)?;
        if let Err(refused) = self.ranges.push(start..self.points.len()) {
            self.points.truncate(start);
            return Err(refused.into());
        }
        Ok(())
    }

    // Returns the first range, or an empty range if there is none.
    fn first_range(&self) -> Range<usize>
        ensures { result ≡ first_range self.now.ranges.items }
    {
        match self.ranges.first() {
            Some(range) => range.start..range.end,
            None => 0..0,
        }
    }
}

impl<I: IntNumber, A: Allocator> IntShapeResource<I> for FlatContoursBuffer<I, A> {
    ghost paths = { λ b. paths_in I.whole b.points.items b.ranges.items };

    /// Returns the number of ranges.
    fn path_count(&self) -> usize {
        self.ranges.len()
    }

    /// Returns the points of contour `index`, or none if its range is not inside the points.
    fn path(&self, index: usize) -> &[IntPoint<I>] {
        part_in(&self.points, &self.ranges[index])
    }
}
