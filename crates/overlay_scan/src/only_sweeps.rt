//! Sweeps are the only ones that the contract of a scan allows.

ghost use Rattle.overlay_scan.specs.Determined.{OneSweep, OneLookUp};

use overlay_geom::number::IntNumber;
use overlay_geom::path::IntLine;
use std::cmp::Ordering;

/// Two sweeps after one insert are equal, whatever keeps their edges.
pub fn one_sweep<V: Copy>()
    ensures { OneSweep V }
{}

/// Two answers of a look-up by one order, which answers in order from bottom to top, are equal.
pub fn one_look_up<I: IntNumber, V: Copy, F: Fn(IntLine<I>) -> Ordering>(order: &F)
    ensures { OneLookUp I.whole (F.post order.now) V }
{}
