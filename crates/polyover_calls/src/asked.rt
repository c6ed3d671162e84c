//! What is asked of contours in arrays, as overlays and hierarchies have it.

ghost use Rattle.std.specs.Prelude.{MatchResult};
ghost use Rattle.polyover_calls.specs.Given.{contours_of};
ghost use Rattle.polyover_calls.specs.Overlays.{IsAskedOverlay, IsOverlayRefused};

use crate::given::{Contours, read_both};
use crate::numbers::{OptionNumbers, fill_of, known_solver, options_of, rule_of};
use crate::status::Status;
use i_overlay::fill_rule::FillRule;
use i_overlay::overlay::Overlay;
use i_overlay::overlay_rule::OverlayRule;
use overlay_geom::integer::OverlayInt;
use overlay_geom::number::IntNumber;
use std::alloc::Global;

/// An overlay that is asked for: its rules and options by their numbers, and the contours.
#[derive(Drop)]
pub struct OverlayNumbers<'a, I: IntNumber> {
    /// The overlay rule.
    pub rule: u32,
    /// The fill rule.
    pub fill: u32,
    /// The options.
    pub options: OptionNumbers<I::WideUInt>,
    /// The subject.
    pub subject: Contours<'a, I>,
    /// The clip.
    pub clip: Contours<'a, I>,
}

/// A builder that has not answered yet, and the rules to ask it by.
#[derive(Drop)]
pub struct AskedOverlay<I: OverlayInt> {
    /// The builder.
    pub builder: Overlay<I, Global>,
    /// The overlay rule.
    pub rule: OverlayRule,
    /// The fill rule.
    pub fill: FillRule,
}

/// A new builder of the contours with the options and rules that the numbers ask for. The numbers are tested first, the
/// rule's before the fill rule's and those of the options, and then the contours.
#[tactic(auto, using(crate::proofs::Overlays::contours_refused, crate::proofs::Overlays::adding_refused, crate::proofs::Overlays::overlay_asked))]
pub fn asked_overlay<I: OverlayInt>(
    alloc: Global,
    asked: &OverlayNumbers<I>,
) -> Result<AskedOverlay<I>, Status>
    ensures { MatchResult result
        (λ a. IsAskedOverlay I.whole I.limit asked.now.rule asked.now.fill asked.now.options
        (contours_of asked.now.subject.coordinates.now asked.now.subject.ends.now)
        (contours_of asked.now.clip.coordinates.now asked.now.clip.ends.now) a.rule a.fill a.builder)
        (IsOverlayRefused I.whole I.limit asked.now.rule asked.now.fill asked.now.options
        (contours_of asked.now.subject.coordinates.now asked.now.subject.ends.now)
        (contours_of asked.now.clip.coordinates.now asked.now.clip.ends.now)) }
{
    let rule = rule_of(asked.rule)?;
    let fill = fill_of(asked.fill)?;
    let settings = options_of(asked.options)?;
    let solver = known_solver(asked.options.solver);
    let read = read_both(alloc, &asked.subject, &asked.clip)?;
    let builder = Overlay::from_subj_and_clip_custom(
        alloc,
        &read.first,
        &read.second,
        settings,
        solver,
    )?;
    Ok(AskedOverlay {
        builder,
        rule,
        fill,
    })
}
