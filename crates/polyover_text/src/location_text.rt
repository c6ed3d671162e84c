//! The text of what is asked about points.

ghost use Rattle.std.specs.Prelude.{◌≡◌, IfOk, OnOk, ◌++◌, string_bytes};
ghost use Rattle.std.specs.List.{flat_map};
ghost use Rattle.polyover_text.specs.Printed.{truth_line, location_line};

use overlay_relate::location::PointLocation;
use std::alloc::{AllocError, Allocator};

/// A line for each truth value: `true` or `false`.
pub fn truths_text<A: Allocator>(alloc: A, truths: &[bool]) -> Result<String<A>, AllocError>
    ensures { IfOk result (λ text. string_bytes text ≡ flat_map truth_line truths.now) }
{
    let mut text = String::new(alloc);
    for truth in truths {
        push_truth(&mut text, *truth)?;
    }
    Ok(text)
}

/// A line for each location: `inside`, `boundary` or `outside`.
pub fn locations_text<A: Allocator>(
    alloc: A,
    locations: &[PointLocation],
) -> Result<String<A>, AllocError>
    ensures { IfOk result (λ text. string_bytes text ≡ flat_map location_line locations.now) }
{
    let mut text = String::new(alloc);
    for location in locations {
        push_location(&mut text, *location)?;
    }
    Ok(text)
}

/// Adds the line of a truth value: `true` or `false`.
pub(crate) fn push_truth<A: Allocator>(text: &mut String<A>, truth: bool) -> Result<(), AllocError>
    ensures { OnOk result (string_bytes text.new ≡ string_bytes text.old ++ truth_line truth) }
{
    if truth {
        text.push_str("true\n")
    } else {
        text.push_str("false\n")
    }
}

fn push_location<A: Allocator>(
    text: &mut String<A>,
    location: PointLocation,
) -> Result<(), AllocError>
    ensures { OnOk result (string_bytes text.new ≡ string_bytes text.old ++ location_line location) }
{
    match location {
        PointLocation::Inside => text.push_str("inside\n"),
        PointLocation::Boundary => text.push_str("boundary\n"),
        PointLocation::Outside => text.push_str("outside\n"),
    }
}
