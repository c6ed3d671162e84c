//! Settings of how edges are split where they meet.

/// Way in which edges are split where they meet, until they meet in ends alone.
#[derive(Debug, Clone, Copy, PartialEq, Eq, Default)]
pub enum Solver {
    /// Splits in rounds: each cuts the edges at the rounded points where they meet. The call refuses with `NotSettled`
    /// where 64 rounds leave edges that still meet elsewhere. Each round moves a point at most 1/2 in x and in y.
    #[default]
    Rounds,
    /// Splits by snap rounding: each edge passes, once, through every hot point whose pixel it meets. Ends are hot, and
    /// so are the whole points nearest to those in which edges meet. Points move at most 1/2 in x and in y, and
    /// `NotSettled` never comes. Where edges meet in whole points alone nothing moves.
    Snapping,
}

impl Solver {
    /// The default: rounds.
    pub const ABSOLUTE: Solver = Solver::Rounds;

    /// Snap rounding, which always settles.
    pub const SNAPPED: Solver = Solver::Snapping;
}
