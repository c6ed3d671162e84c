//! Laws of the total number of visits.

ghost use Rattle.overlay_scan.specs.EitherRuns.{EitherRunsAreQuick};
ghost use Rattle.overlay_scan.specs.Runs.{RunsAreQuick};

use overlay_geom::number::IntNumber;

/// Bounds the visits of look-ups and inserts, beginning with an empty tree. Calls that insert n edges visit at most 2 d
/// entries for each call and each inserted edge, where n + 1 < 2^d.
pub fn runs_are_quick<I: IntNumber, V: Copy>()
    ensures { RunsAreQuick I.whole V }
{}

/// Bounds the visits of look-ups and inserts, beginning with an empty scan that may turn into a tree. Calls that insert
/// n edges visit at most 2 d entries for each call and 4 d for each inserted edge, where n + 1 < 2^d.
pub fn either_runs_are_quick<I: IntNumber, V: Copy>()
    ensures { EitherRunsAreQuick I.whole V }
{}
