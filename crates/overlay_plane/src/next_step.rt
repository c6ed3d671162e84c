//! The next step by a hand: sets in which it is one to one, such as steps that alternate.

ghost use Rattle.overlay_plane.specs.NextSteps.{AlternatingStepsLeadOn, StepsThatLeadOnHaveOneNext};
ghost use Rattle.overlay_plane.specs.NextSteps.{NextIsOneToOne, ClosedPartsAlternate, ClosedPartsLeadOn};

/// Steps that alternate lead on by either hand.
pub fn alternating_steps_lead_on()
    ensures { AlternatingStepsLeadOn }
{}

/// In a set of steps that leads on by a hand, each step has one next step by it.
pub fn steps_that_lead_on_have_one_next()
    ensures { StepsThatLeadOnHaveOneNext }
{}

/// Takes a part of a set that leads on, where the part has a step exactly where it has its next step. The part and the
/// rest lead on, with the same next steps.
pub fn closed_parts_lead_on()
    ensures { ClosedPartsLeadOn }
{}

/// In a set of steps that alternates, each step has one next step by a hand: its neighbour at the node. It is the next
/// step of one step.
pub fn next_is_one_to_one()
    ensures { NextIsOneToOne }
{}

/// Takes a part of steps that alternate, where the part has a step exactly where it has its next step. The part and the
/// rest alternate, with the same next steps.
pub fn closed_parts_alternate()
    ensures { ClosedPartsAlternate }
{}
