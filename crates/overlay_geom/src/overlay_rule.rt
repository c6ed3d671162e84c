//! Overlay rules: the points that the result consists of.

ghost use Rattle.std.specs.Prelude.{◌≡◌};
ghost use Rattle.overlay_geom.specs.Rules.{rule_holds};

/// The points that the result takes, depending on whether the subject and the clip fill them.
///
/// Difference, InverseDifference, Subject and Clip tell the subject from the clip. Union, Intersect and Xor have equal
/// answers when the two are exchanged.
#[derive(Debug, Clone, Copy, PartialEq, Eq)]
pub enum OverlayRule {
    /// Points that the subject fills.
    Subject,
    /// Points that the clip fills.
    Clip,
    /// Points that both fill.
    Intersect,
    /// Points that at least one of them fills.
    Union,
    /// Points that the subject fills and the clip does not.
    Difference,
    /// Points that the clip fills and the subject does not.
    InverseDifference,
    /// Points that exactly one of them fills.
    Xor,
}

impl OverlayRule {
    /// Returns whether the result takes a point, given whether the subject and whether the clip fill it.
    pub fn holds(self, subj: bool, clip: bool) -> bool
        ensures { result ≡ rule_holds self subj clip }
    {
        match self {
            OverlayRule::Subject => subj,
            OverlayRule::Clip => clip,
            OverlayRule::Intersect => subj && clip,
            OverlayRule::Union => subj || clip,
            OverlayRule::Difference => subj && !clip,
            OverlayRule::InverseDifference => clip && !subj,
            OverlayRule::Xor => subj != clip,
        }
    }
}
