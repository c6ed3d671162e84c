//! The two ways to turn at a node, and the rule by which walks turn.

use overlay_geom::options::ContourDirection;

/// The side of an arriving step through which a walk turns at its end. A ray that turns from the
/// way back through the left side turns clockwise, through the right side counterclockwise.
#[derive(Debug, Clone, Copy, PartialEq, Eq)]
pub enum Hand {
    /// Through the left side, clockwise.
    Left,
    /// Through the right side, counterclockwise.
    Right,
}

/// The rule that tells the hand of a walk by its first step.
#[derive(Debug, Clone, Copy)]
pub enum HandRule {
    /// Each step has its filled side on the left where the direction is counterclockwise, else on the right. A walk
    /// that starts along an edge filled above is a hole, and turns through its empty side. Each other walk is an
    /// outline, and turns through its filled side.
    OutlineOrHole(ContourDirection),
    /// Each walk turns by this hand.
    Always(Hand),
}
