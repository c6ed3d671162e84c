//! Exact arrangements: edges scaled so that they meet in whole points alone, cut at these.

ghost use Rattle.overlay_scaled.specs.ExactArrangements.{ExactArrangementsExist, ExactArrangementsArrange};
ghost use Rattle.overlay_scaled.specs.ExactArrangements.{ExactArrangementsAreFillable, MergingKeepsPointsOff};

/// Each list that leads forward has an exact arrangement.
pub fn exact_arrangements_exist()
    ensures { ExactArrangementsExist }
{}

/// An exact arrangement of a list with balanced counts is planar and balanced, and winds as the scaled list, off whose
/// edges it has none.
pub fn exact_arrangements_arrange()
    ensures { ExactArrangementsArrange }
{}

/// Fillings of an exact arrangement meet the premise of the laws on fillings.
pub fn exact_arrangements_are_fillable()
    ensures { ExactArrangementsAreFillable }
{}

/// A merged list has no edge at a point off the list, and winds as the list.
pub fn merging_keeps_points_off()
    ensures { MergingKeepsPointsOff }
{}
