//! Arrays and what they hold determine each other.

ghost use Rattle.polyover_calls.specs.ArrayLaws.{PointsComeBack, CoordinatesComeBack, EndsComeBack, RangesComeBack};
ghost use Rattle.polyover_calls.specs.ArrayLaws.{OneTest, OneTestOfPoints, OnePacking, OnePackingOfShapes};

use overlay_geom::number::IntNumber;

/// Points are those of their coordinates, and an even count of coordinates are those of their points.
pub fn points_come_back<I>()
    ensures points { PointsComeBack I }
    ensures coordinates { CoordinatesComeBack I }
{}

/// Ends are those of the ranges up to them, and ranges that follow one another are those up to their ends.
pub fn ranges_come_back()
    ensures ends { EndsComeBack }
    ensures ranges { RangesComeBack }
{}

/// Two answers of a test of the same arrays are equal.
pub fn one_test<I: IntNumber>()
    ensures contours { OneTest I.whole I.limit }
    ensures points { OneTestOfPoints I.whole I.limit }
{}

/// Points and ranges in which the same paths stand packed are equal, and so are those of shapes.
pub fn one_packing<I: IntNumber>()
    ensures paths { OnePacking I.whole }
    ensures shapes { OnePackingOfShapes I.whole }
{}
