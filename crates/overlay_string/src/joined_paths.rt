//! The paths that pieces of strings are joined to.

ghost use Rattle.std.specs.Prelude.{IfOk, OnOk};
ghost use Rattle.overlay_geom.specs.Flat.{paths_in};
ghost use Rattle.overlay_geom.specs.Packed.{IsPacked};
ghost use Rattle.overlay_geom.specs.Points.{plain_point, plain_points};
ghost use Rattle.overlay_string.specs.ClipPaths.{ArePathsOf};
ghost use Rattle.overlay_string.specs.Pieces.{plain_piece, GoesOn, IsShownPath};

use crate::open_pieces::OpenPieces;
use crate::piece::{Piece, Way};
use overlay_geom::flat::contours::FlatContoursBuffer;
use overlay_geom::number::IntNumber;
use overlay_geom::path::IntPath;
use overlay_geom::point::IntPoint;
use std::alloc::{AllocError, Allocator};

/// Returns the paths of the open pieces, in a single list without gaps. Each begins with the first of them, or, if that
/// runs back along its edge, ends with it. At its end, or at its beginning, it takes the first piece that goes on
/// there, until there is none. After a refusal some pieces may be open.
pub(crate) fn joined_paths<I: IntNumber, A: Allocator + Clone>(
    alloc: A,
    pieces: &mut OpenPieces<I, A>,
) -> Result<FlatContoursBuffer<I, A>, AllocError>
    ensures paths { IfOk result (λ b. ArePathsOf pieces.old (paths_in I.whole b.points.items b.ranges.items)) }
    ensures packed { IfOk result (λ b. IsPacked b.points.items b.ranges.items) }
{
    let mut paths = FlatContoursBuffer {
        points: Vec::new(alloc.clone()?),
        ranges: Vec::new(alloc.clone()?),
    };
    let mut path = Vec::new(alloc);
    while let Some(piece) = pieces.take_first() {
        write_path(&mut path, pieces, piece)?;
        let Ok(()) = paths.add_contour(&path) else {
            return Err(AllocError);
        };
    }
    Ok(paths)
}

// Writes the path of a piece that was taken first of all over a list. It is walked on the way that the piece tells.
fn write_path<I: IntNumber, A: Allocator + Clone>(
    path: &mut IntPath<I, A>,
    pieces: &mut OpenPieces<I, A>,
    piece: Piece<I>,
) -> Result<(), AllocError>
    ensures ok { OnOk result (IsShownPath (plain_piece I.whole piece) pieces.old pieces.new
        (plain_points I.whole path.new.items)) }
{
    let way = piece.way();
    let end = piece.end(way);
    path.clear();
    path.push(piece.start(way))?;
    path.push(end)?;
    go_on(path, pieces, way, end)?;
    match way {
        Way::Onward => Ok(()),
        Way::Back => {
            path.reverse();
            Ok(())
        }
    }
}

// Adds the points at which open pieces arrive that go on from a point, one after another, seen on the way.
fn go_on<I: IntNumber, A: Allocator + Clone>(
    path: &mut IntPath<I, A>,
    pieces: &mut OpenPieces<I, A>,
    way: Way,
    from: IntPoint<I>,
) -> Result<(), AllocError>
    ensures ok { OnOk result (GoesOn way (plain_point I.whole from) pieces.old pieces.new
        (plain_points I.whole path.old.items) (plain_points I.whole path.new.items)) }
{
    let mut end = from;
    while let Some(piece) = pieces.take_at(way, end)? {
        end = piece.end(way);
        path.push(end)?;
    }
    Ok(())
}
