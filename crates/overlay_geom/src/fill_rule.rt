//! Fill rules: the windings that are filled.

ghost use Rattle.std.specs.Prelude.{◌≡◌};
ghost use Rattle.overlay_geom.specs.Rules.{is_filled};

/// The windings that count as filled.
#[derive(Debug, Clone, Copy, PartialEq, Eq)]
pub enum FillRule {
    /// Odd windings.
    EvenOdd,
    /// Windings other than 0.
    NonZero,
    /// Windings above 0.
    Positive,
    /// Windings below 0.
    Negative,
}

impl FillRule {
    /// Returns whether the winding is filled.
    pub fn fills(self, winding: i64) -> bool
        ensures { result ≡ is_filled self winding }
    {
        match self {
            FillRule::EvenOdd => winding.unsigned_abs() % 2 == 1,
            FillRule::NonZero => winding != 0,
            FillRule::Positive => winding > 0,
            FillRule::Negative => winding < 0,
        }
    }
}
