//! Windings on the two sides of an edge, and the fill bits that follow from them.

ghost use Rattle.std.specs.Prelude.{◌≡◌, ◌^◌, ◌≤◌, ◌+ℤ◌};
ghost use Rattle.overlay_geom.specs.Numbers.{Within};
ghost use Rattle.overlay_geom.specs.Rules.{is_filled, bit, bits_of};

use overlay_geom::fill_rule::FillRule;
use overlay_order::count::EdgeCount;
use overlay_order::edge::CountedEdge;
use overlay_order::vector::{CLIP_LEFT, CLIP_RIGHT, SUBJ_LEFT, SUBJ_RIGHT, SideFill};

/// The windings of the subject and of the clip round a point.
#[derive(Debug, Clone, Copy)]
pub struct Windings {
    /// The winding of the subject.
    pub subj: i64,
    /// The winding of the clip.
    pub clip: i64,
}

impl Windings {
    /// Returns the windings beyond the edge: its counts are added.
    pub(crate) fn beyond<I, C: EdgeCount>(self, edge: &CountedEdge<I, C>) -> Windings
        requires subj { Within (2 ^ 31) self.subj }
        requires clip { Within (2 ^ 31) self.clip }
        ensures subj { result.subj ≡ self.subj +ℤ (C.counts edge.now.count).subj }
        ensures clip { result.clip ≡ self.clip +ℤ (C.counts edge.now.count).clip }
    {
        Windings {
            subj: self.subj + i64::from(edge.count.subj()),
            clip: self.clip + i64::from(edge.count.clip()),
        }
    }
}

/// Returns the bit of a side if it is filled, else 0.
pub fn bit_if(is_filled: bool, side: SideFill) -> SideFill
    ensures value { result ≡ bit is_filled side }
    ensures at_most { result ≤ side }
{
    if is_filled { side } else { 0 }
}

/// Returns the fill bits of an edge between the windings below it and those above it.
pub(crate) fn bits_between(below: Windings, above: Windings, rule: FillRule) -> SideFill
    ensures { result ≡ bits_of (record {
      subj_above = is_filled rule above.subj;
      subj_below = is_filled rule below.subj;
      clip_above = is_filled rule above.clip;
      clip_below = is_filled rule below.clip;
    }) }
{
    bit_if(rule.fills(above.subj), SUBJ_LEFT)
        + bit_if(rule.fills(below.subj), SUBJ_RIGHT)
        + bit_if(rule.fills(above.clip), CLIP_LEFT)
        + bit_if(rule.fills(below.clip), CLIP_RIGHT)
}
