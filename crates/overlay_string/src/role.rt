//! As what a path is added to a builder for strings.

ghost use Rattle.std.specs.Prelude.{◌≡◌};
ghost use Rattle.overlay_string.specs.StringPaths.{kind_in, passing_in};

use overlay_builder::path::{PathKind, StepCounts};
use overlay_order::string_count::{STRING_AGAINST, STRING_ALONG, ShapeCountString};

/// As what a path is added.
#[derive(Debug, Clone, Copy, PartialEq, Eq)]
pub enum PathRole {
    /// A closed contour of the shape, without points on one line.
    Shape,
    /// A string from its first point to its last one.
    OpenString,
    /// A string that runs back from its last point to its first.
    ClosedString,
}

/// Returns how the points of such a path are taken.
pub(crate) fn kind_in(role: PathRole) -> PathKind
    ensures { result ≡ kind_in role }
{
    match role {
        PathRole::Shape => PathKind::Thinned,
        PathRole::OpenString => PathKind::Open,
        PathRole::ClosedString => PathKind::Closed,
    }
}

/// Returns the counts of an edge that a step of such a path passes.
pub(crate) fn passing_in(role: PathRole) -> StepCounts<ShapeCountString>
    ensures { result ≡ passing_in role }
{
    match role {
        PathRole::Shape => StepCounts {
            along: ShapeCountString { subj: 1, clip: 0 },
            back: ShapeCountString { subj: -1, clip: 0 },
        },
        PathRole::OpenString | PathRole::ClosedString => StepCounts {
            along: ShapeCountString {
                subj: 0,
                clip: STRING_ALONG,
            },
            back: ShapeCountString {
                subj: 0,
                clip: STRING_AGAINST,
            },
        },
    }
}
