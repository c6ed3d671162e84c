//! Paths as arrays, and these put into arrays of a caller.

ghost use Rattle.std.specs.Prelude.{◌≡◌, map, IfOk, IsOkUnless};
ghost use Rattle.overlay_geom.specs.Flat.{paths_in};
ghost use Rattle.overlay_geom.specs.Packed.{IsPacked};
ghost use Rattle.polyover_calls.specs.WrittenPaths.{ArePathsFlattened, ArePathsPut, flat_paths, path_room};

use crate::flatten::{coordinates_of, ends_of};
use crate::narrowed::ArrayInt;
use crate::path_counts::PathCounts;
use crate::status::Status;
use crate::write::write_over;
use overlay_geom::flat::contours::FlatContoursBuffer;
use overlay_geom::number::IntNumber;
use std::alloc::Global;

/// Paths as arrays: the coordinates, and the ends of paths among the points.
#[derive(Drop)]
pub struct PathAnswer<I> {
    pub(crate) coordinates: Vec<I, Global>,
    pub(crate) ends: Vec<usize, Global>,
}

/// Returns the paths, which stand without gaps, as arrays. The only refusal is `Memory`.
pub(crate) fn flattened_paths<I: IntNumber>(
    alloc: Global,
    paths: &FlatContoursBuffer<I, Global>,
) -> Result<PathAnswer<I>, Status>
    requires packed { IsPacked paths.now.points.items paths.now.ranges.items }
    ensures flattened { IfOk result (λ a. ArePathsFlattened I.whole
        (paths_in I.whole paths.now.points.items paths.now.ranges.items)
        (flat_paths a.coordinates.items a.ends.items)) }
    ensures only { IsOkUnless result Status.Memory }
{
    let coordinates = coordinates_of(alloc, &paths.points)?;
    let ends = ends_of(alloc, &paths.ranges)?;
    Ok(PathAnswer { coordinates, ends })
}

/// Returns the paths at 32 bits in this type. The only refusal is `Memory`.
pub(crate) fn widened_paths<I: ArrayInt>(
    alloc: Global,
    answer: PathAnswer<i32>,
) -> Result<PathAnswer<I>, Status>
    ensures coordinates { IfOk result (λ a. map I.whole a.coordinates.items ≡ answer.coordinates.items) }
    ensures ends { IfOk result (λ a. a.ends.items ≡ answer.ends.items) }
    ensures only { IsOkUnless result Status.Memory }
{
    let coordinates = I::widened(alloc, answer.coordinates)?;
    Ok(PathAnswer {
        coordinates,
        ends: answer.ends,
    })
}

/// Puts the paths into the arrays, and their counts: `Done`; or `TooSmall`, and the arrays stay as they are.
pub(crate) fn put_paths<I: IntNumber>(
    answer: &PathAnswer<I>,
    coordinates: &mut [I],
    ends: &mut [usize],
    counts: &mut PathCounts,
) -> Status
    ensures { ArePathsPut
        (flat_paths answer.now.coordinates.items answer.now.ends.items)
        (path_room coordinates.old ends.old counts.old)
        (path_room coordinates.new ends.new counts.new)
        result }
{
    *counts = PathCounts {
        coordinates: answer.coordinates.len(),
        paths: answer.ends.len(),
    };
    if counts.coordinates > coordinates.len() || counts.paths > ends.len() {
        return Status::TooSmall;
    }
    write_over(coordinates, &answer.coordinates);
    write_over(ends, &answer.ends);
    Status::Done
}
