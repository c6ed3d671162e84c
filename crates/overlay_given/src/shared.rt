//! Places at which a piece that borders the subject alone ends, and one that borders the clip alone.

ghost use Rattle.std.specs.Prelude.{◌↔◌, ◌+◌, ◌<◌, length, IsTrue};
ghost use Rattle.overlay_exact.specs.Along.{plain_mets};
ghost use Rattle.overlay_given.specs.Places.{AreRangesBy, AllBorderClip, SharesOn, SomeShare};

use crate::sides::{SideTest, SidesAtPlace};
use overlay_exact::met::MetAlong;
use overlay_geom::number::WideIntNumber;

/// Returns whether a border of the subject alone ends at a place where one of the clip alone does. `places` has the
/// sides at each meeting point; those of edge i begin at `starts[i]`.
pub(crate) fn has_shared_place<W: WideIntNumber>(
    starts: &[usize],
    met: &[MetAlong<W>],
    places: &[SidesAtPlace],
) -> bool
    requires ranges { AreRangesBy starts.now (plain_mets W.whole met.now) places.now }
    ensures { IsTrue result ↔ SomeShare starts.now (plain_mets W.whole met.now) places.now }
{
    let mut end = 1;
    while end < starts.len() {
        if shares_on(starts, met, places, end - 1) {
            return true;
        }
        end += 1;
    }
    false
}

// Returns whether edge i has such a place.
fn shares_on<W: WideIntNumber>(
    starts: &[usize],
    met: &[MetAlong<W>],
    places: &[SidesAtPlace],
    i: usize,
) -> bool
    requires ranges { AreRangesBy starts.now (plain_mets W.whole met.now) places.now }
    requires within { (i + 1) < length starts.now }
    ensures { IsTrue result ↔ SharesOn starts.now (plain_mets W.whole met.now) places.now i }
{
    let mut k = starts[i];
    while k < starts[i + 1] {
        let sides = places[k];
        if sides.pass(SideTest::SubjectBorder)
            && (sides.pass(SideTest::ClipBorder)
                || all_border_clip(starts, met, places, met[k].other, i))
        {
            return true;
        }
        k += 1;
    }
    false
}

// Returns whether at each meeting point of edge j with edge i a border of the clip alone ends, which is a piece of j.
fn all_border_clip<W: WideIntNumber>(
    starts: &[usize],
    met: &[MetAlong<W>],
    places: &[SidesAtPlace],
    j: usize,
    i: usize,
) -> bool
    requires ranges { AreRangesBy starts.now (plain_mets W.whole met.now) places.now }
    requires within { (j + 1) < length starts.now }
    ensures { IsTrue result ↔ AllBorderClip starts.now (plain_mets W.whole met.now) places.now j i }
{
    let mut k = starts[j];
    while k < starts[j + 1] {
        if met[k].other == i && !places[k].pass(SideTest::ClipBorder) {
            return false;
        }
        k += 1;
    }
    true
}
