//! Half planes with whole borders: cutting rounds keep edges inside them.

ghost use Rattle.overlay_plane.specs.HalfPlanes.{ArrangementsStayInHalfPlanes, ChainsStayInHalfPlanes};
ghost use Rattle.overlay_plane.specs.HalfPlanes.{NothingWindsBeyond};

/// The chain of an edge in a half plane stays in it, where the border is upright or level and at a whole number. So the
/// chain of an upright or a level edge stays on its line.
pub fn chains_stay_in_half_planes()
    ensures { ChainsStayInHalfPlanes }
{}

/// An arrangement of edges in such a half plane stays in it. So none of its points lies outside their bounding box.
pub fn arrangements_stay_in_half_planes()
    ensures { ArrangementsStayInHalfPlanes }
{}

/// Balanced edges in such a half plane wind round no point beyond it. So outside their bounding box the winding is 0.
pub fn nothing_winds_beyond()
    ensures { NothingWindsBeyond }
{}
