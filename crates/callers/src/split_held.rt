//! A builder whose edges are split.

ghost use Rattle.std.specs.Prelude.{◌≡◌, true, IsErrOf};

use overlay_builder::builder_core::BuilderCore;
use overlay_geom::error::OverlayError;
use overlay_geom::solver::Solver;
use overlay_order::count::ShapeCountBoolean;
use std::alloc::Global;

/// Splits what a builder holds, and tells whether it cut any edge.
pub fn split_held(
    core: &mut BuilderCore<i32, ShapeCountBoolean, Global>,
) -> Result<bool, OverlayError>
    ensures { IsErrOf result OverlayError.Failed → core.old.failed ≡ true }
{
    core.arrange(Solver::ABSOLUTE, &mut ())
}
