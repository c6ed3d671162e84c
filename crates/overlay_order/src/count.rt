//! Values that edges carry: counts of how often paths pass the edge, and perhaps data.

ghost use Rattle.std.specs.Prelude.{◌≡◌, ◌+◌, ◌^◌, ◌<◌, IsTrue};
ghost use Rattle.overlay_geom.specs.Counts.{Counts, joined_counts, reversed_counts, are_zero};
ghost use Rattle.overlay_geom.specs.Counts.{weight_of_counts};
ghost use Rattle.overlay_order.specs.Parting.{MayPart};

/// The value that an edge carries through an arrangement. It counts how often paths pass the edge from its smaller to
/// its larger end, minus how often they pass it back. It may hold data too.
///
/// Where equal edges are merged their counts are summed. A piece that runs against its edge has the counts with
/// opposite signs. Data is merged, split and reversed with them, as a type tells by `merges`, `splits` and `reverses`.
/// By these `Content::arrange` tells the value of each edge.
pub trait EdgeCount: Copy {
    /// A store that the data needs beside the edges; `()` for counts alone.
    type Store;

    // How a call of `merged`, `split` or `reversed` may change the store; by default not at all.
    ghost writes: { Self.Store → Self.Store → Type 0 } = { λ s t. t ≡ s };

    // The counts as whole numbers.
    ghost counts: { Self → Counts };

    // Possible results of merging the values of two equal edges.
    ghost merges: { Self → Self → Self → Type 0 };

    // Possible values of a piece of an edge that is cut.
    ghost splits: { Self → Self → Type 0 };

    // Possible values of a piece that runs against its edge.
    ghost reverses: { Self → Self → Type 0 };

    /// Returns whether edges may be parted before they are cut: a split value is a copy, and the reversed value of a
    /// merge is a merge of reversed values.
    fn may_part() -> bool
        ensures { IsTrue result → MayPart merges splits reverses };

    /// Returns whether no path passes the edge.
    fn is_nothing(self) -> bool
        ensures { result ≡ are_zero (counts self) };

    /// Returns the weight of the counts: the sum of their absolute values, and 1 for each direction of a string. They
    /// weigh less than 2^31.
    fn weight(self) -> u32
        requires { weight_of_counts (counts self) < 2 ^ 31 }
        ensures { result ≡ weight_of_counts (counts self) };

    /// Returns the number of times that the subject passes the edge.
    fn subj(self) -> i32
        ensures { result ≡ (counts self).subj };

    /// Returns the number of times that the clip passes the edge.
    fn clip(self) -> i32
        ensures { result ≡ (counts self).clip };

    /// Returns the merged value of two equal edges. Together they weigh less than 2^31.
    fn merged(self, other: Self, store: &mut Self::Store) -> Self
        requires { weight_of_counts (counts self) + weight_of_counts (counts other) < 2 ^ 31 }
        ensures counts { counts result ≡ joined_counts (counts self) (counts other) }
        ensures merges { merges self other result }
        ensures writes { writes store.old store.new };

    /// Returns the value of a piece of an edge that is cut into several pieces.
    fn split(self, store: &mut Self::Store) -> Self
        ensures counts { counts result ≡ counts self }
        ensures splits { splits self result }
        ensures writes { writes store.old store.new };

    /// Returns the value of a piece that runs against its edge. The counts weigh less than 2^31.
    fn reversed(self, store: &mut Self::Store) -> Self
        requires { weight_of_counts (counts self) < 2 ^ 31 }
        ensures counts { counts result ≡ reversed_counts (counts self) }
        ensures reverses { reverses self result }
        ensures writes { writes store.old store.new };
}

/// The number of times that the subject, and the clip, pass an edge from its smaller to its larger end, minus the
/// number of times back.
#[derive(Debug, Clone, Copy, PartialEq, Eq)]
pub struct ShapeCountBoolean {
    /// The number for the subject.
    pub subj: i32,
    /// The number for the clip.
    pub clip: i32,
}

impl EdgeCount for ShapeCountBoolean {
    ghost use Rattle.std.specs.Prelude.{◌+ℤ◌, neg_ℤ};
    ghost use Rattle.overlay_order.specs.Counts.{boolean_counts};

    type Store = ();

    ghost counts = { boolean_counts };

    ghost merges = { λ c k m. (m.subj ≡ c.subj +ℤ k.subj) × (m.clip ≡ c.clip +ℤ k.clip) };

    ghost splits = { λ c p. p ≡ c };

    ghost reverses = { λ c t. (t.subj ≡ neg_ℤ c.subj) × (t.clip ≡ neg_ℤ c.clip) };

    fn may_part() -> bool {
        true
    }

    fn is_nothing(self) -> bool {
        self.subj == 0 && self.clip == 0
    }

    fn weight(self) -> u32 {
        self.subj.unsigned_abs() + self.clip.unsigned_abs()
    }

    fn subj(self) -> i32 {
        self.subj
    }

    fn clip(self) -> i32 {
        self.clip
    }

    fn merged(self, other: ShapeCountBoolean, _store: &mut ()) -> ShapeCountBoolean {
        ShapeCountBoolean {
            subj: self.subj + other.subj,
            clip: self.clip + other.clip,
        }
    }

    fn split(self, _store: &mut ()) -> ShapeCountBoolean {
        self
    }

    fn reversed(self, _store: &mut ()) -> ShapeCountBoolean {
        ShapeCountBoolean {
            subj: -self.subj,
            clip: -self.clip,
        }
    }
}
