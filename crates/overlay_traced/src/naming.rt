//! The given edges that a mark names, one after another.

ghost use Rattle.std.specs.Prelude.{◌≡◌, ◌++◌, Some, OnOk, map};
ghost use Rattle.overlay_traced.specs.Marks.{both_known, passed_on, sources_of};

use crate::mark::Mark;
use crate::source::{Passage, Source, passed_on, source_of};
use std::alloc::{AllocError, Global};

/// Adds the given edges that the mark names. If the mark is lost, or memory is refused, it is refused.
pub(crate) fn push_sources(
    sources: &mut Vec<Source, Global>,
    mark: Mark<'_>,
) -> Result<(), AllocError>
    ensures { OnOk result (Some sources.new.items
        ≡ both_known (Some sources.old.items) (sources_of mark.entry)) }
{
    match mark {
        Mark::Lost => return Err(AllocError),
        Mark::Given(edge, passage) => sources.push(source_of(edge, passage))?,
        Mark::Merged(list, passage) => push_all(sources, list, passage)?,
    }
    Ok(())
}

// Adds the given edges of the list, as they were passed on.
fn push_all(
    sources: &mut Vec<Source, Global>,
    list: &[Source],
    passage: Passage,
) -> Result<(), AllocError>
    ensures { OnOk result (sources.new.items ≡ sources.old.items ++ map (passed_on passage) list.now) }
{
    for source in list {
        sources.push(passed_on(*source, passage))?;
    }
    Ok(())
}
