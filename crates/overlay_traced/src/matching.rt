//! Whether a list of given edges is that of two marks.

ghost use Rattle.std.specs.Prelude.{◌≡◌, ◌∷◌, ◌++◌, Some, IfSome, IsTrue, map};
ghost use Rattle.overlay_traced.specs.Marks.{both_known, passed_on, sources_of};

use crate::mark::Mark;
use crate::source::{Passage, Source, passed_on, source_of};

/// Returns whether the list has the given edges of the two marks, one after the other.
pub(crate) fn is_both(list: &[Source], first: Mark<'_>, second: Mark<'_>) -> bool
    ensures { IsTrue result → Some list.now ≡ both_known (sources_of first.entry) (sources_of second.entry) }
{
    let Some(rest) = rest_after(list, first) else {
        return false;
    };
    let Some(rest) = rest_after(rest, second) else {
        return false;
    };
    rest.is_empty()
}

// The rest of the list after the given edges of the mark, if it begins with them.
fn rest_after<'a>(list: &'a [Source], mark: Mark<'_>) -> Option<&'a [Source]>
    ensures { IfSome result (λ rest. Some list.now ≡ both_known (sources_of mark.entry) (Some rest.now)) }
{
    match mark {
        Mark::Lost => None,
        Mark::Given(edge, passage) => rest_after_one(list, source_of(edge, passage)),
        Mark::Merged(sources, passage) => rest_after_all(list, sources, passage),
    }
}

// The rest of the list after the given edges as they were passed on, if it begins with them.
fn rest_after_all<'a>(
    list: &'a [Source],
    sources: &[Source],
    passage: Passage,
) -> Option<&'a [Source]>
    ensures { IfSome result (λ rest. list.now ≡ map (passed_on passage) sources.now ++ rest.now) }
{
    let mut rest = list;
    for source in sources {
        rest = rest_after_one(rest, passed_on(*source, passage))?;
    }
    Some(rest)
}

// The rest of the list after the given edge, if it is the first one.
fn rest_after_one<'a>(list: &'a [Source], source: Source) -> Option<&'a [Source]>
    ensures { IfSome result (λ rest. list.now ≡ source ∷ rest.now) }
{
    let (first, rest) = list.split_first()?;
    if *first != source {
        return None;
    }
    Some(rest)
}
