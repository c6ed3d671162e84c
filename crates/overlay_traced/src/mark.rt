//! Marks that edges carry, which tell the given edges that they come from.

ghost use Rattle.std.specs.Prelude.{◌≡◌, ◌⊎◌, ⊤, false, refl};
ghost use Rattle.overlay_traced.specs.Marks.{IsJoined, cut_mark, lost_mark, turned_mark};

use crate::lists::SourceLists;
use crate::matching::is_both;
use crate::source::{Passage, Source, cut, turned};
use overlay_order::count::ShapeCountBoolean;
use overlay_order::data::{EdgeDataMerge, OverlayEdgeData};

/// Where an edge comes from.
#[derive(Clone, Copy)]
pub enum Mark<'a> {
    /// It is not known.
    Lost,
    /// It comes from the given edge with the number.
    Given(usize, Passage),
    /// It comes from equal edges that were merged, with these given edges.
    Merged(&'a [Source], Passage),
}

/// The lists that merged edges have, in the order of the merges, and the number of merges so far.
#[derive(Default, Drop)]
pub struct SecondPass<'a> {
    /// The lists; without them no merged edge is known.
    pub(crate) lists: Option<&'a SourceLists>,
    /// The number of merges so far.
    pub(crate) next: usize,
}

impl<'a> SecondPass<'a> {
    // The list of the next merge.
    fn next_list(&mut self) -> Option<&'a [Source]> {
        let number = self.next;
        self.next = number.wrapping_add(1);
        let lists = self.lists?;
        lists.list(number)
    }
}

// (nothing compares marks: no two count as equal)
impl<'a> PartialEq for Mark<'a> {
    ghost eq = { λ _ _. false };

    ghost laws = { record { symm = λ _ _. refl; trans = λ _ _ _ same _. same } };

    fn eq(&self, _other: &Mark<'a>) -> bool {
        false
    }
}

impl<'a> OverlayEdgeData for Mark<'a> {
    type Store = SecondPass<'a>;

    ghost writes = { λ _ _. ⊤ };

    ghost merges = { λ _ d _ e m. (m ≡ lost_mark) ⊎ IsJoined d e m };

    ghost splits = { λ d p. p ≡ cut_mark d };

    ghost reverses = { λ d t. t ≡ turned_mark d };

    fn merge(
        merge: EdgeDataMerge<ShapeCountBoolean, Mark<'a>>,
        store: &mut SecondPass<'a>,
    ) -> Mark<'a>
        ensures merges { (result ≡ lost_mark) ⊎ IsJoined merge.entry.lhs_data merge.entry.rhs_data result }
    {
        let Some(list) = store.next_list() else {
            return Mark::Lost;
        };
        if is_both(list, merge.lhs_data, merge.rhs_data) {
            Mark::Merged(list, Passage::ALONG)
        } else {
            Mark::Lost
        }
    }

    fn split(self, _store: &mut SecondPass<'a>) -> Mark<'a> {
        match self {
            Mark::Lost => Mark::Lost,
            Mark::Given(edge, passage) => Mark::Given(edge, cut(passage)),
            Mark::Merged(list, passage) => Mark::Merged(list, cut(passage)),
        }
    }

    fn reversed(self, _store: &mut SecondPass<'a>) -> Mark<'a> {
        match self {
            Mark::Lost => Mark::Lost,
            Mark::Given(edge, passage) => Mark::Given(edge, turned(passage)),
            Mark::Merged(list, passage) => Mark::Merged(list, turned(passage)),
        }
    }
}
