//! The store of a builder's data.

ghost use Rattle.std.specs.Prelude.{◌≡◌};
ghost use Rattle.std.specs.Borrow.{Lends, sem};
ghost use Rattle.overlay_vector.specs.contracts.edge_overlay.EdgeOverlay.{the_row};

use crate::edge_overlay::EdgeOverlay;
use overlay_geom::integer::OverlayInt;
use overlay_order::data::OverlayEdgeData;
use std::alloc::Allocator;

impl<I: OverlayInt, D: OverlayEdgeData, A: Allocator> EdgeOverlay<I, D, A> {
    /// The store of the edges' data.
    pub fn data_store(&self) -> &D::Store
        ensures { result.now ≡ self.now.store }
    {
        &self.store
    }

    /// Lends the store of the edges' data, to be written.
    pub fn data_store_mut(&mut self) -> &mut D::Store
        ensures* writes_back { sem 𝓛 (Lends
            (the_row I.row D.row A.row I.Wide.row I.WideUInt.row D.Store.row I.IntNumber I.Wide.WideIntNumber
            I.WideUInt.UIntNumber D.OverlayEdgeData.own D.Clone D.PartialEq D.Store.Default A.Allocator)
            D.Store.row self.entry result (λ w. record self.old { store = w })) }
        ensures value { result.now ≡ self.old.store }
    {
        &mut self.store
    }

    /// The store of the edges' data. The builder is dropped.
    pub fn into_data_store(self) -> D::Store
        ensures { result ≡ self.store }
    {
        self.store
    }
}
