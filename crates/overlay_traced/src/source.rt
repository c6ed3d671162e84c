//! The given edges on which an edge of an arrangement lies, and how it lies on them.

ghost use Rattle.std.specs.Prelude.{◌≡◌, not, true};
ghost use Rattle.overlay_traced.specs.Marks.{passed_on, source_of};

/// A given edge on which an edge of an arrangement lies.
#[repr(C)]
#[derive(Debug, Clone, Copy, PartialEq, Eq)]
pub struct Source {
    /// The number of the given edge, from 0.
    pub edge: usize,
    /// Whether it was cut into pieces.
    pub is_cut: bool,
    /// Whether it runs against the edge of the arrangement.
    pub is_reversed: bool,
}

/// How an edge lies on those that it comes from.
#[derive(Clone, Copy, PartialEq)]
pub struct Passage {
    /// Whether they were cut into pieces.
    pub is_cut: bool,
    /// Whether they run against it.
    pub is_reversed: bool,
}

impl Passage {
    /// How an edge lies on itself.
    pub const ALONG: Passage = Passage {
        is_cut: false,
        is_reversed: false,
    };
}

/// Returns the passage of a piece of the edge.
pub(crate) fn cut(passage: Passage) -> Passage
    ensures { result ≡ record passage { is_cut = true } }
{
    Passage {
        is_cut: true,
        is_reversed: passage.is_reversed,
    }
}

/// Returns the passage of the edge the other way.
pub(crate) fn turned(passage: Passage) -> Passage
    ensures { result ≡ record passage { is_reversed = not passage.is_reversed } }
{
    Passage {
        is_cut: passage.is_cut,
        is_reversed: !passage.is_reversed,
    }
}

/// Returns the given edge with the number, as an edge that lies on it so has it.
pub(crate) fn source_of(edge: usize, passage: Passage) -> Source
    ensures { result ≡ source_of edge passage }
{
    Source {
        edge,
        is_cut: passage.is_cut,
        is_reversed: passage.is_reversed,
    }
}

/// Returns a given edge of an edge, as another edge has it that lies on that edge so.
pub(crate) fn passed_on(source: Source, passage: Passage) -> Source
    ensures { result ≡ passed_on passage source }
{
    Source {
        edge: source.edge,
        is_cut: source.is_cut || passage.is_cut,
        is_reversed: source.is_reversed != passage.is_reversed,
    }
}
