//! The cyclic order in which a turning ray meets the points round its start.

ghost use Rattle.overlay_plane.specs.Rays.{RaysInCyclicOrder};

/// Rays round a point are met in a strict cyclic order by either hand, wherever the turn starts. The hands have
/// opposite orders.
pub fn rays_in_cyclic_order()
    ensures { RaysInCyclicOrder }
{}
