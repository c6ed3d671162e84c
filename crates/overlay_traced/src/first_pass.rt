//! The first pass over given edges, which finds out the lists of merged edges.

ghost use Rattle.std.specs.Prelude.{⊤, All};
ghost use Rattle.overlay_traced.specs.Given.{IsGivenInRange};

use crate::given::{GivenData, GivenEdge};
use crate::lists::{SourceLists, Span};
use crate::source::{Passage, cut, turned};
use crate::wanted::arranged;
use overlay_geom::error::OverlayError;
use overlay_geom::number::IntNumber;
use overlay_geom::solver::Solver;
use overlay_order::count::ShapeCountBoolean;
use overlay_order::data::{EdgeDataMerge, OverlayEdgeData};
use std::alloc::{AllocError, Global};

/// Where the list of an edge lies, and how the edge lies on it.
#[derive(Clone, Copy, PartialEq)]
struct Draft {
    span: Span,
    passage: Passage,
}

/// The lists so far, unless memory was refused.
#[derive(Default, Drop)]
struct FirstPass {
    lists: Option<SourceLists>,
}

impl FirstPass {
    // The draft of an edge that was merged from two.
    fn joined(&mut self, first: Draft, second: Draft) -> Result<Draft, AllocError> {
        match &mut self.lists {
            None => Err(AllocError),
            Some(lists) => {
                let span = lists.join((first.span, first.passage), (second.span, second.passage))?;
                Ok(Draft {
                    span,
                    passage: Passage::ALONG,
                })
            }
        }
    }
}

impl OverlayEdgeData for Draft {
    type Store = FirstPass;

    ghost writes = { λ _ _. ⊤ };

    ghost merges = { λ _ _ _ _ _. ⊤ };

    ghost splits = { λ _ _. ⊤ };

    ghost reverses = { λ _ _. ⊤ };

    fn merge(merge: EdgeDataMerge<ShapeCountBoolean, Draft>, store: &mut FirstPass) -> Draft
        ensures { ⊤ }
    {
        match store.joined(merge.lhs_data, merge.rhs_data) {
            Ok(draft) => draft,
            Err(_) => {
                store.lists = None;
                merge.lhs_data
            }
        }
    }

    fn split(self, _store: &mut FirstPass) -> Draft {
        Draft {
            span: self.span,
            passage: cut(self.passage),
        }
    }

    fn reversed(self, _store: &mut FirstPass) -> Draft {
        Draft {
            span: self.span,
            passage: turned(self.passage),
        }
    }
}

impl GivenData for Draft {
    ghost given = { λ n p. record { span = record { start = n; count = 1 }; passage = p } };

    fn of_given(number: usize, passage: Passage) -> Draft {
        Draft {
            span: Span {
                start: number,
                count: 1,
            },
            passage,
        }
    }
}

/// Arranges the edges, and returns the lists of its merges. Where it is refused, so is the second pass, or its merged
/// edges are not known.
pub(crate) fn merged_lists<I: IntNumber>(
    alloc: Global,
    edges: &[GivenEdge<I>],
    solver: Solver,
) -> Result<SourceLists, OverlayError>
    requires { All (IsGivenInRange I.whole I.limit) edges.now }
{
    let mut store = FirstPass {
        lists: Some(SourceLists::of_given(alloc, edges.len())?),
    };
    arranged::<I, Draft>(alloc, edges, solver, &mut store)?;
    store.lists.ok_or(OverlayError::Memory)
}
