//! What C passes: which parts of lines a clip keeps.

ghost use Rattle.std.specs.Prelude.{◌≡◌, MatchResult};
ghost use Rattle.polyover_calls.specs.Clipped.{clip_rule_of, AreClipChoices};
ghost use Rattle.polyover_calls.specs.declared.status.Status.TheVariants.{BadOption};

use crate::status::Status;
use i_overlay::string::clip::ClipRule;

/// Which parts of lines a clip keeps, by numbers.
#[repr(C)]
#[derive(Clone, Copy)]
pub struct ClipOptions {
    /// 1 where the parts outside of the shape are kept, 0 where those inside are.
    pub invert: u32,
    /// 1 where the parts on the boundary are kept too, else 0.
    pub boundary: u32,
    /// How edges are split where they meet: 0 by snap rounding, 1 in rounds.
    pub solver: u32,
}

/// The clip rule with the numbers; `BadOption` where one of them, or that of the solver, is neither 0 nor 1.
pub(crate) fn clip_rule_of(options: ClipOptions) -> Result<ClipRule, Status>
    ensures { MatchResult result (λ r. AreClipChoices options × (r ≡ clip_rule_of options))
        (λ s. (s ≡ BadOption) × ¬ (AreClipChoices options)) }
{
    if options.invert > 1 || options.boundary > 1 || options.solver > 1 {
        return Err(Status::BadOption);
    }
    Ok(ClipRule {
        invert: options.invert == 1,
        boundary_included: options.boundary == 1,
    })
}
