//! Relations by the bits that C knows them by.

ghost use Rattle.std.specs.Prelude.{◌≡◌, MatchResult};
ghost use Rattle.polyover_calls.specs.RelatedOne.{IsRelation, bit_of};
ghost use Rattle.polyover_calls.specs.declared.status.Status.TheVariants.{BadOption};

use crate::status::Status;

/// A relation of a subject and a clip.
#[derive(Clone, Copy)]
pub enum Relation {
    /// The closures of the interiors have a common point.
    Intersects,
    /// The interiors have one.
    InteriorsIntersect,
    /// The shapes intersect, and their interiors do not.
    Touches,
    /// The shapes intersect, in single points alone.
    PointIntersects,
    /// The subject lies within the clip.
    Within,
    /// The shapes have no common point.
    Disjoint,
    /// The subject covers the clip.
    Covers,
}

/// Returns the relation with the bit, and `BadOption` where none has it.
#[tactic(auto, using(crate::proofs::RelatedOne::no_relation))]
pub fn relation_of(bit: u32) -> Result<Relation, Status>
    ensures { MatchResult result (λ r. bit ≡ bit_of r) (λ s. (s ≡ BadOption) × ¬ (IsRelation bit)) }
{
    match bit {
        1 => Ok(Relation::Intersects),
        2 => Ok(Relation::InteriorsIntersect),
        4 => Ok(Relation::Touches),
        8 => Ok(Relation::PointIntersects),
        16 => Ok(Relation::Within),
        32 => Ok(Relation::Disjoint),
        64 => Ok(Relation::Covers),
        _ => Err(Status::BadOption),
    }
}
