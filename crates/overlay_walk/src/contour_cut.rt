//! The cut of steps into contours.

ghost use Rattle.std.specs.Prelude.{◌≡◌, [], All, Contains, IfOk, OnOk};
ghost use Rattle.overlay_plane.specs.BesideOrbits.{HasEachOnce};
ghost use Rattle.overlay_plane.specs.Contours.{outline_or_hole_hand};
ghost use Rattle.overlay_plane.specs.Contours.{CanBeCut, IsCutInto};
ghost use Rattle.overlay_plane.specs.Turn.{other_hand};
ghost use Rattle.overlay_walk.specs.Steps.{plain_hand, plain_step, plain_steps, filled_hand, hand_by};
ghost use Rattle.overlay_walk.specs.Walks.{plain_walks};

use crate::filled_side::is_filled_above;
use crate::hand::{Hand, HandRule};
use crate::open_steps::OpenSteps;
use crate::step::Step;
use overlay_geom::number::IntNumber;
use overlay_geom::options::ContourDirection;
use std::alloc::{AllocError, Allocator};

/// Cuts all steps left into walks. While steps are left, the next walk is the orbit of the step along the top edge at
/// their leftmost lowest point, by the hand that the rule tells of it. The steps alternate round every node, or the
/// rule tells one hand, by which they lead on. At the end no step is left. After a refusal, the steps left are open.
pub fn cut_into_contours<I: IntNumber, A: Allocator + Clone>(
    alloc: A,
    steps: &mut OpenSteps<I, A>,
    rule: HandRule,
) -> Result<Vec<Vec<Step<I>, A>, A>, AllocError>
    requires cuttable { CanBeCut (hand_by rule) (plain_steps I.whole steps.old) }
    requires once { HasEachOnce (plain_steps I.whole steps.old) }
    ensures cut { IfOk result (λ ws. IsCutInto (hand_by rule) (plain_steps I.whole steps.old)
        (plain_walks I.whole ws.items)) }
    ensures among { IfOk result (λ ws. All (λ w. All (Contains steps.old) w.items) ws.items) }
    ensures none_left { OnOk result (steps.new ≡ []) }
{
    let mut room = Vec::new(alloc.clone()?);
    let mut contours = Vec::new(alloc);
    while let Some(start) = steps.start() {
        let hand = hand_by(rule, start);
        contours.push(steps.walk(&mut room, start, hand)?)?;
    }
    Ok(contours)
}

/// Returns the hand that the rule tells of a step.
fn hand_by<I: IntNumber>(rule: HandRule, start: Step<I>) -> Hand
    ensures { plain_hand result ≡ hand_by rule (plain_step I.whole start) }
{
    match rule {
        HandRule::OutlineOrHole(direction) => hand_of(start, direction),
        HandRule::Always(hand) => hand,
    }
}

/// Returns the hand by which the contour turns that starts with this step.
fn hand_of<I: IntNumber>(start: Step<I>, direction: ContourDirection) -> Hand
    ensures { plain_hand result ≡ outline_or_hole_hand (filled_hand direction) (plain_step I.whole start) }
{
    if is_filled_above(&start, direction) {
        empty_hand(direction)
    } else {
        filled_hand(direction)
    }
}

/// Returns the hand of the filled side of each step, for contours in this direction.
pub(crate) fn filled_hand(direction: ContourDirection) -> Hand
    ensures { plain_hand result ≡ filled_hand direction }
{
    match direction {
        ContourDirection::CounterClockwise => Hand::Left,
        ContourDirection::Clockwise => Hand::Right,
    }
}

/// Returns the hand of the empty side of each step, for contours in this direction.
pub(crate) fn empty_hand(direction: ContourDirection) -> Hand
    ensures { plain_hand result ≡ other_hand (filled_hand direction) }
{
    match direction {
        ContourDirection::CounterClockwise => Hand::Right,
        ContourDirection::Clockwise => Hand::Left,
    }
}
