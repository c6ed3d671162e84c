//! Edges that are split until they are arranged.

ghost use Rattle.std.specs.Prelude.{OnOk};
ghost use Rattle.overlay_plane.specs.Carried.{edges_in};
ghost use Rattle.overlay_graph.specs.Arranged.{IsArranged};

use overlay_arrange::content::Content;
use overlay_geom::error::OverlayError;
use overlay_geom::solver::Solver;
use overlay_order::count::ShapeCountBoolean;
use std::alloc::Global;

/// Splits the edges by the solver, and tells how many there are.
pub fn split_edges(
    content: &mut Content<i32, ShapeCountBoolean, Global>,
    solver: Solver,
) -> Result<usize, OverlayError>
    ensures { OnOk result (IsArranged solver (edges_in content.old) (edges_in content.new)) }
{
    content.arrange(solver, &mut ())?;
    Ok(content.edges().len())
}
