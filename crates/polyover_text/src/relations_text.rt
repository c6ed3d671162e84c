//! The text of how a subject and a clip lie to each other.

ghost use Rattle.std.specs.Prelude.{◌≡◌, IfOk, OnOk, ◌++◌, string_bytes};
ghost use Rattle.polyover_text.specs.Printed.{relation_line, relation_lines};

use crate::location_text::push_truth;
use overlay_relate::relations::Relations;
use std::alloc::{AllocError, Allocator};

/// A line for each relation, which gives its name and whether it holds: `intersects true`. They come in the
/// order of the fields.
pub fn relations_text<A: Allocator>(
    alloc: A,
    relations: &Relations,
) -> Result<String<A>, AllocError>
    ensures { IfOk result (λ text. string_bytes text ≡ relation_lines relations.now) }
{
    let mut text = String::new(alloc);
    push_relation(&mut text, "intersects", relations.intersects)?;
    push_relation(
        &mut text,
        "interiors_intersect",
        relations.interiors_intersect,
    )?;
    push_relation(&mut text, "touches", relations.touches)?;
    push_relation(&mut text, "point_intersects", relations.point_intersects)?;
    push_relation(&mut text, "within", relations.within)?;
    push_relation(&mut text, "disjoint", relations.disjoint)?;
    push_relation(&mut text, "covers", relations.covers)?;
    Ok(text)
}

fn push_relation<A: Allocator>(
    text: &mut String<A>,
    name: &str,
    holds: bool,
) -> Result<(), AllocError>
    ensures { OnOk result
        (string_bytes text.new ≡ string_bytes text.old ++ relation_line name.now holds) }
{
    text.push_str(name)?;
    text.push(' ')?;
    push_truth(text, holds)
}
