//! The filled sides of an edge, seen on the way back.

ghost use Rattle.std.specs.Prelude.{◌≡◌};
ghost use Rattle.overlay_vector.specs.SideFills.{turned_fill};

use overlay_graph::windings::bit_if;
use overlay_order::vector::{CLIP_LEFT, CLIP_RIGHT, SUBJ_LEFT, SUBJ_RIGHT, SideFill};

/// What can be seen the other way round.
pub trait Reverse {
    // What is seen then.
    ghost turned: { Self → Self };

    /// Returns what is seen the other way round.
    fn reverse(self) -> Self
        ensures { result ≡ turned self };
}

/// Left and right change places, for the subject and for the clip.
impl Reverse for SideFill {
    ghost turned = { turned_fill };

    /// Returns the filled sides of the edge as they are seen on the way back: left and right change
    /// places, for the subject and for the clip, and higher bits are dropped.
    fn reverse(self) -> SideFill {
        bit_if(self & SUBJ_RIGHT != 0, SUBJ_LEFT)
            + bit_if(self & SUBJ_LEFT != 0, SUBJ_RIGHT)
            + bit_if(self & CLIP_RIGHT != 0, CLIP_LEFT)
            + bit_if(self & CLIP_LEFT != 0, CLIP_RIGHT)
    }
}
