//! Grids and tiles are the only ones that their contracts allow.

ghost use Rattle.overlay_tiles.specs.OneGrid.{OneGrid, OneTiling, OneTilingOfPaths, TiledPathsAreRefusedByMemoryAlone};

use overlay_string::only_answers::{memory_alone_refuses, one_answer};

/// Two lists of the lines of a grid across one list of points are equal.
pub fn one_grid()
    ensures { OneGrid }
{}

/// Two lists of tiles over one arrangement are equal: the tiles, their order, and the parts in each.
pub fn one_tiling()
    ensures { OneTiling }
{}

/// Two lists of tiles that snap rounding gives of the same paths, for one grid, are equal.
pub fn one_tiling_of_paths()
    ensures { OneTilingOfPaths }
{
    one_answer()
}

/// Paths to which snap rounding gives tiles of a grid are refused only where memory is.
pub fn memory_alone_refuses_tiles()
    ensures { TiledPathsAreRefusedByMemoryAlone }
{
    memory_alone_refuses()
}
