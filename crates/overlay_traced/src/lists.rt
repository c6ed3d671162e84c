//! Lists of given edges that merged edges have, in the order of the merges.

use crate::source::{Passage, Source, passed_on, source_of};
use std::alloc::{AllocError, Global};

/// Where a list lies among all.
#[derive(Clone, Copy, PartialEq)]
pub(crate) struct Span {
    /// Where it begins.
    pub(crate) start: usize,
    /// Number of its items.
    pub(crate) count: usize,
}

impl Span {
    // Where it ends.
    fn end(self) -> usize {
        self.start.wrapping_add(self.count)
    }
}

/// Lists of given edges: first each given edge alone, then those of merged edges.
#[derive(Drop)]
pub struct SourceLists {
    // the lists, which may share places
    sources: Vec<Source, Global>,
    // where the list of each merged edge lies, in the order of the merges
    merged: Vec<Span, Global>,
}

impl SourceLists {
    /// Returns the lists of `count` given edges, each of itself alone.
    pub(crate) fn of_given(alloc: Global, count: usize) -> Result<SourceLists, AllocError> {
        let mut sources = Vec::with_capacity(alloc, count)?;
        for number in 0..count {
            sources.push(source_of(number, Passage::ALONG))?;
        }
        Ok(SourceLists {
            sources,
            merged: Vec::new(alloc),
        })
    }

    /// Returns the list of the merged edge with the number.
    pub(crate) fn list(&self, number: usize) -> Option<&[Source]> {
        let span = *self.merged.get(number)?;
        self.sources.get(span.start..span.end())
    }

    /// Adds the list of a merged edge: the first list as it was passed on, and the second one. Where the first one
    /// stands at the end as it is, it is not copied.
    pub(crate) fn join(
        &mut self,
        first: (Span, Passage),
        second: (Span, Passage),
    ) -> Result<Span, AllocError> {
        let mut start = first.0.start;
        if first.0.end() != self.sources.len() || first.1 != Passage::ALONG {
            start = self.sources.len();
            self.push_list(first.0, first.1)?;
        }
        self.push_list(second.0, second.1)?;
        let span = Span {
            start,
            count: self.sources.len().wrapping_sub(start),
        };
        self.merged.push(span)?;
        Ok(span)
    }

    // Adds the items of the list again, as they were passed on.
    fn push_list(&mut self, span: Span, passage: Passage) -> Result<(), AllocError> {
        for place in span.start..span.end() {
            if let Some(source) = self.sources.get(place) {
                let source = passed_on(*source, passage);
                self.sources.push(source)?;
            }
        }
        Ok(())
    }
}
