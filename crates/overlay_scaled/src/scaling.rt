//! Edges scaled by a whole number.

ghost use Rattle.overlay_scaled.specs.ScaledPoints.{ScalingKeepsPoints};
ghost use Rattle.overlay_scaled.specs.ScaledRelations.{ScalingKeepsRelations};
ghost use Rattle.overlay_scaled.specs.WholeScales.{SomeScaleIsWhole};

/// Scaled edges lie round the point n times as far as the edges lie round a point: with it on them, below it or off it,
/// and with the same windings.
pub fn scaling_keeps_points()
    ensures { ScalingKeepsPoints }
{}

/// Some scale makes all meeting points whole.
pub fn some_scale_is_whole()
    ensures { SomeScaleIsWhole }
{}

/// Interiors intersect, a shape lies within the other and a rule holds somewhere of the scaled edges exactly where this
/// holds of the edges.
pub fn scaling_keeps_relations()
    ensures { ScalingKeepsRelations }
{}
