//! Rules and options by the numbers that C knows them by.

ghost use Rattle.std.specs.Prelude.{◌≡◌, ◌<◌, ◌≤◌, ◌↔◌, IsTrue, MatchResult};
ghost use Rattle.polyover_calls.specs.Asked.{rule_of, fill_of, solver_of, options_of, AreChoices, AreKnown};
ghost use Rattle.polyover_calls.specs.Narrowed.{without_minimum};
ghost use Rattle.polyover_calls.specs.Refusals.{AreQueryNumbers};
ghost use Rattle.polyover_calls.specs.declared.status.Status.TheVariants.{BadRule, BadFill, BadOption};

use crate::status::Status;
use i_overlay::fill_rule::FillRule;
use i_overlay::overlay::{ContourDirection, IntOverlayOptions};
use i_overlay::overlay_rule::OverlayRule;
use i_overlay::solver::Solver;
use overlay_geom::number::UIntNumber;

/// Options as numbers.
#[derive(Clone, Copy)]
pub struct OptionNumbers<U> {
    /// The direction of outlines: 0 for counter-clockwise, 1 for clockwise.
    pub direction: u32,
    /// A sum that tells which points on one line are kept: 1 for those of the answer, 2 for given ones.
    pub keep: u32,
    /// Whether a contour may visit a point twice, 1 or 0.
    pub touching: u32,
    /// How edges are split: 0 by snap rounding, 1 in rounds.
    pub solver: u32,
    /// The smallest area that is kept.
    pub min_area: U,
}

impl<U: UIntNumber> OptionNumbers<U> {
    /// Returns whether contours of all areas are kept.
    pub(crate) fn keep_all(&self) -> bool
        ensures { IsTrue result ↔ (U.natural self.now.min_area ≡ 0) }
    {
        U::zero().is_at_least(self.min_area)
    }

    /// Returns whether each choice has a number below 2, and the sum `keep` one below 4.
    pub(crate) fn are_choices(&self) -> bool
        ensures { IsTrue result ↔ AreChoices self.now }
    {
        self.direction < 2 && self.keep < 4 && self.touching < 2 && self.solver < 2
    }

    /// Returns the numbers at 32 bits, with the smallest area zero.
    pub(crate) fn without_minimum(&self) -> OptionNumbers<u64>
        ensures { result ≡ without_minimum self.now }
    {
        OptionNumbers {
            direction: self.direction,
            keep: self.keep,
            touching: self.touching,
            solver: self.solver,
            min_area: 0,
        }
    }
}

/// Returns whether the numbers of an overlay all stand for something.
pub(crate) fn are_known<U: UIntNumber>(rule: u32, fill: u32, options: &OptionNumbers<U>) -> bool
    ensures { IsTrue result ↔ AreKnown rule fill options.now }
{
    rule < 7 && fill < 4 && options.are_choices()
}

/// Returns whether the numbers of another query stand for something.
pub(crate) fn are_query_numbers(fill: u32, solver: u32) -> bool
    ensures { IsTrue result ↔ AreQueryNumbers fill solver }
{
    fill < 4 && solver < 2
}

/// The overlay rule with the number; `BadRule` from 7 on.
pub fn rule_of(number: u32) -> Result<OverlayRule, Status>
    ensures { MatchResult result (λ r. (number < 7) × (r ≡ rule_of number)) (λ s. (s ≡ BadRule) × (7 ≤ number)) }
{
    match number {
        0 => Ok(OverlayRule::Subject),
        1 => Ok(OverlayRule::Clip),
        2 => Ok(OverlayRule::Intersect),
        3 => Ok(OverlayRule::Union),
        4 => Ok(OverlayRule::Difference),
        5 => Ok(OverlayRule::InverseDifference),
        6 => Ok(OverlayRule::Xor),
        _ => Err(Status::BadRule),
    }
}

/// The fill rule with the number; `BadFill` from 4 on.
pub fn fill_of(number: u32) -> Result<FillRule, Status>
    ensures { MatchResult result (λ r. (number < 4) × (r ≡ fill_of number)) (λ s. (s ≡ BadFill) × (4 ≤ number)) }
{
    match number {
        0 => Ok(FillRule::EvenOdd),
        1 => Ok(FillRule::NonZero),
        2 => Ok(FillRule::Positive),
        3 => Ok(FillRule::Negative),
        _ => Err(Status::BadFill),
    }
}

/// The solver with the number; `BadOption` from 2 on.
pub fn solver_of(number: u32) -> Result<Solver, Status>
    ensures { MatchResult result (λ r. (number < 2) × (r ≡ solver_of number)) (λ s. (s ≡ BadOption) × (2 ≤ number)) }
{
    match number {
        0 => Ok(Solver::SNAPPED),
        1 => Ok(Solver::ABSOLUTE),
        _ => Err(Status::BadOption),
    }
}

/// The solver with the number, which is known.
pub fn known_solver(number: u32) -> Solver
    requires { number < 2 }
    ensures { result ≡ solver_of number }
{
    if number == 0 {
        Solver::SNAPPED
    } else {
        Solver::ABSOLUTE
    }
}

/// The options with the numbers; `BadOption` where a choice has a number from 2 on, or the sum `keep` one from 4 on.
pub fn options_of<U: UIntNumber>(numbers: OptionNumbers<U>) -> Result<IntOverlayOptions<U>, Status>
    ensures { MatchResult result (λ o. AreChoices numbers × (o ≡ options_of numbers))
        (λ s. (s ≡ BadOption) × ¬ (AreChoices numbers)) }
{
    if !numbers.are_choices() {
        return Err(Status::BadOption);
    }
    let output_direction = if numbers.direction == 0 {
        ContourDirection::CounterClockwise
    } else {
        ContourDirection::Clockwise
    };
    Ok(IntOverlayOptions {
        preserve_input_collinear: numbers.keep >= 2,
        output_direction,
        preserve_output_collinear: numbers.keep % 2 == 1,
        min_output_area: numbers.min_area,
        ogc: numbers.touching == 0,
    })
}
