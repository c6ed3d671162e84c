//! Number of visits of entries. It exists in proofs alone: it takes no memory, and its methods do nothing.
ghost use Rattle.std.specs.Prelude.{◌≡◌, ℕ, ◌+◌};
ghost use Rattle.std.specs.Borrow.{ftrue};

use std::marker::Model;

/// A number of visits, without a greatest value.
#[derive(Drop)]
pub struct Visits {
    pub ghost count: { ℕ },
}

impl Model for Visits {
    ghost also_owns = { λ _. ftrue };
}

impl Visits {
    /// Makes the count of no visits.
    pub fn none() -> Visits
        ensures { result.count ≡ 0 }
    {
        Visits {}
    }

    /// Returns the count plus one.
    pub(crate) fn and_one(&self) -> Visits
        ensures { result.count ≡ self.now.count + 1 }
    {
        Visits {}
    }
}
