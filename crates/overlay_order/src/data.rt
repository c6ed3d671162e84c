//! Data that edges carry through an overlay beside their counts.

ghost use Rattle.std.specs.Prelude.{◌≡◌, ◌+◌, ◌^◌, ◌<◌, IsTrue, ⊤};
ghost use Rattle.overlay_geom.specs.Counts.{weight_of_counts};
ghost use Rattle.overlay_order.specs.Counts.{boolean_counts};
ghost use Rattle.overlay_order.specs.Parting.{MayPartData};
ghost use Rattle.overlay_order.specs.declared.count.ShapeCountBoolean.{ShapeCountBoolean};

use crate::count::{EdgeCount, ShapeCountBoolean};

/// The counts and the data of two equal edges that are merged.
#[derive(Clone, Copy)]
pub struct EdgeDataMerge<C, D> {
    /// The counts of the left edge.
    pub lhs_count: C,
    /// The counts of the right edge.
    pub rhs_count: C,
    /// The data of the left edge.
    pub lhs_data: D,
    /// The data of the right edge.
    pub rhs_data: D,
}

/// Data that an edge carries through an overlay, such as a colour or the number of a street.
///
/// Where an edge is cut into two or more pieces, each piece has the `split` of its data. A piece that runs against its
/// edge has the `reversed` of that. Where equal edges are merged, `merge` gives the new data of two at a time, in an
/// order that is left open. An implementation tells the possible answers of the three, and how they may change the
/// store.
pub trait OverlayEdgeData: Copy + PartialEq {
    /// A store that the three functions need beside the data, such as a table for new data; `()` if they need none.
    type Store: Default + Drop;

    // How a call of the three may change the store; by default not at all.
    ghost writes: { Self.Store → Self.Store → Type 0 } = { λ s t. t ≡ s };

    // Possible results of merging the counts and data of two equal edges.
    ghost merges: { ShapeCountBoolean → Self → ShapeCountBoolean → Self → Self → Type 0 };

    // Possible data of a piece; by default the data of the edge.
    ghost splits: { Self → Self → Type 0 } = { λ d p. p ≡ d };

    // Possible data of a piece that runs against its edge; by default the data of the edge.
    ghost reverses: { Self → Self → Type 0 } = { λ d t. t ≡ d };

    /// Returns whether edges may be parted before they are cut: a split of data is a copy, and the reversed data of a
    /// merge is a merge of reversed data.
    fn may_part() -> bool
        ensures { IsTrue result → MayPartData merges splits reverses }
    {
        false
    }

    /// Returns the data of the merged edge of two equal edges. Together they weigh less than 2^31.
    fn merge(merge: EdgeDataMerge<ShapeCountBoolean, Self>, store: &mut Self::Store) -> Self
        requires { weight_of_counts (boolean_counts merge.lhs_count)
            + weight_of_counts (boolean_counts merge.rhs_count) < 2 ^ 31 }
        ensures merges { merges merge.lhs_count merge.lhs_data merge.rhs_count merge.rhs_data result }
        ensures writes { writes store.old store.new };

    /// Returns the data of a piece of an edge that is cut into several pieces.
    fn split(self, store: &mut Self::Store) -> Self
        ensures splits { splits self result }
        ensures writes { writes store.old store.new };

    /// Returns the data of a piece that runs against its edge.
    fn reversed(self, store: &mut Self::Store) -> Self
        ensures reverses { reverses self result }
        ensures writes { writes store.old store.new };
}

/// No data.
impl OverlayEdgeData for () {
    type Store = ();

    ghost merges = { λ _ _ _ _ _. ⊤ };

    ghost splits = { λ _ _. ⊤ };

    ghost reverses = { λ _ _. ⊤ };

    fn may_part() -> bool {
        true
    }

    fn merge(_merge: EdgeDataMerge<ShapeCountBoolean, ()>, _store: &mut ())
        ensures { ⊤ }
    {}

    fn split(self, _store: &mut ()) {}

    fn reversed(self, _store: &mut ()) {}
}

/// The counts of an edge for the subject and the clip, and the data of the edge.
#[derive(Clone, Copy)]
pub struct CountWithData<D> {
    /// The counts.
    pub count: ShapeCountBoolean,
    /// The data.
    pub edge_data: D,
}

impl<D: OverlayEdgeData> EdgeCount for CountWithData<D> {
    ghost use Rattle.overlay_order.specs.EdgeData.{AreMerged, IsPiece, IsReversed};

    type Store = D::Store;

    ghost writes = { D.writes };

    ghost counts = { λ c. boolean_counts c.count };

    ghost merges = { AreMerged D.merges };

    ghost splits = { IsPiece D.splits };

    ghost reverses = { IsReversed D.reverses };

    fn may_part() -> bool {
        D::may_part()
    }

    fn is_nothing(self) -> bool {
        self.count.is_nothing()
    }

    fn weight(self) -> u32 {
        self.count.weight()
    }

    fn subj(self) -> i32 {
        self.count.subj
    }

    fn clip(self) -> i32 {
        self.count.clip
    }

    fn merged(self, other: CountWithData<D>, store: &mut D::Store) -> CountWithData<D> {
        let merge = EdgeDataMerge {
            lhs_count: self.count,
            rhs_count: other.count,
            lhs_data: self.edge_data,
            rhs_data: other.edge_data,
        };
        CountWithData {
            count: self.count.merged(other.count, &mut ()),
            edge_data: D::merge(merge, store),
        }
    }

    fn split(self, store: &mut D::Store) -> CountWithData<D> {
        CountWithData {
            count: self.count,
            edge_data: self.edge_data.split(store),
        }
    }

    fn reversed(self, store: &mut D::Store) -> CountWithData<D> {
        CountWithData {
            count: self.count.reversed(&mut ()),
            edge_data: self.edge_data.reversed(store),
        }
    }
}
