//! Orbits by a hand, in a set of steps that leads on by it.

ghost use Rattle.overlay_plane.specs.Orbits.{OrbitsExist, OrbitsAreCycles, OrbitsHaveThreeSteps};
ghost use Rattle.overlay_plane.specs.Orbits.{OrbitsAreUnique, OrbitsAreApart, OrbitsAreClosed};
ghost use Rattle.overlay_plane.specs.Orbits.{OrbitsLeaveTheRest, OrbitsOfTheRest};
ghost use Rattle.overlay_plane.specs.OrbitsSoFar.{OrbitsGrow};

/// From each step its next steps lead back to it.
pub fn orbits_exist()
    ensures { OrbitsExist }
{}

/// An orbit visits each of its steps once. With each step it has the next step and the step before.
pub fn orbits_are_cycles()
    ensures { OrbitsAreCycles }
{}

/// An orbit of steps that alternate has three steps or more.
pub fn orbits_have_three_steps()
    ensures { OrbitsHaveThreeSteps }
{}

/// A step has one orbit.
pub fn orbits_are_unique()
    ensures { OrbitsAreUnique }
{}

/// Orbits that share a step have the same steps.
pub fn orbits_are_apart()
    ensures { OrbitsAreApart }
{}

/// A test that holds of the steps of an orbit holds of a step exactly where it holds of its next step.
pub fn orbits_are_closed()
    ensures { OrbitsAreClosed }
{}

/// The steps that an orbit leaves of steps that alternate do so too.
pub fn orbits_leave_the_rest()
    ensures { OrbitsLeaveTheRest }
{}

/// An orbit of the steps that closed parts leave is an orbit of the whole set.
pub fn orbits_of_the_rest()
    ensures { OrbitsOfTheRest }
{}

/// A walk along an orbit comes to no step twice before it comes to its first step again. Then it is the orbit.
pub fn orbits_grow()
    ensures { OrbitsGrow }
{}
