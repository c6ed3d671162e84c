//! Where grid lines cross an axis: at the multiples of a step within a span.

ghost use Rattle.std.specs.Prelude.{◌≡◌, ◌↔◌, IfOk, IsTrue, int_lt, map, pos, ◌+ℤ◌, ◌≤ℤ◌};
ghost use Rattle.overlay_geom.specs.Numbers.{Within};
ghost use Rattle.overlay_tiles.specs.Grids.{AreFewMultiples, AreGridMultiples, IsGridStep};
ghost use Rattle.overlay_tiles.specs.Multiples.{IsFirstMultiple, IsRemainder, IsWayToNext, IsMultipleAfter};
ghost use Rattle.overlay_tiles.specs.Spans.{plain_span};

use crate::span::IntSpan;
use overlay_geom::number::IntNumber;
use std::alloc::{AllocError, Allocator};

/// The most grid lines that there may be in a direction.
pub const MOST_LINES: usize = 1000;

/// Returns whether at most 1,000 multiples of the step lie strictly between the ends of the span. It takes no memory.
pub fn are_few<I: IntNumber>(step: I, span: IntSpan<I>) -> bool
    requires step { IsGridStep I.limit (I.whole step) }
    requires least { Within I.limit (I.whole span.least) }
    requires greatest { Within I.limit (I.whole span.greatest) }
    ensures { IsTrue result ↔ AreFewMultiples (I.whole step) (plain_span I.whole span) }
{
    let mut next = first_multiple(step, span);
    let mut count = 0;
    while let Some(multiple) = next {
        if count == MOST_LINES {
            return false;
        }
        count += 1;
        next = multiple_after(multiple, step, span.greatest);
    }
    true
}

/// The multiples of the step strictly between the ends of the span, in ascending order.
pub fn grid_multiples<I: IntNumber, A: Allocator>(
    alloc: A,
    step: I,
    span: IntSpan<I>,
) -> Result<Vec<I, A>, AllocError>
    requires step { IsGridStep I.limit (I.whole step) }
    requires least { Within I.limit (I.whole span.least) }
    requires greatest { Within I.limit (I.whole span.greatest) }
    ensures ok { IfOk result (λ v. AreGridMultiples (I.whole step) (plain_span I.whole span) (map I.whole v.items)) }
{
    let mut multiples = Vec::new(alloc);
    let mut next = first_multiple(step, span);
    while let Some(multiple) = next {
        multiples.push(multiple)?;
        next = multiple_after(multiple, step, span.greatest);
    }
    Ok(multiples)
}

// The first multiple of the step strictly between the ends of the span.
fn first_multiple<I: IntNumber>(step: I, span: IntSpan<I>) -> Option<I>
    requires step { IsGridStep I.limit (I.whole step) }
    requires least { Within I.limit (I.whole span.least) }
    requires greatest { Within I.limit (I.whole span.greatest) }
    ensures { IsFirstMultiple I.whole (I.whole step) (plain_span I.whole span) result }
{
    multiple_after(span.least, way_to_next(span.least, step), span.greatest)
}

// The multiple that lies this way above a multiple, if it lies below the end.
fn multiple_after<I: IntNumber>(multiple: I, way: I, end: I) -> Option<I>
    requires multiple { Within I.limit (I.whole multiple) }
    requires way { Within I.limit (I.whole way) }
    requires end { Within I.limit (I.whole end) }
    ensures { IsMultipleAfter I.whole (I.whole multiple +ℤ I.whole way) (I.whole end) result }
{
    if is_less(way, end.minus(multiple)) {
        Some(multiple.plus(way))
    } else {
        None
    }
}

// How far above the coordinate the next multiple of the step lies: the step itself above a multiple.
fn way_to_next<I: IntNumber>(at: I, step: I) -> I
    requires at { Within I.limit (I.whole at) }
    requires step { IsGridStep I.limit (I.whole step) }
    ensures { IsWayToNext (I.whole step) (I.whole at) (I.whole result) }
{
    let zero = at.minus(at);
    if zero.compare(at).is_le() {
        let over = remainder(at, step);
        return step.minus(over);
    }
    let turned = zero.minus(at);
    let rest = remainder(turned, step);
    if is_less(zero, rest) { rest } else { step }
}

// What the greatest multiple of the step that is at most the number leaves of it. The number is 0 or greater.
fn remainder<I: IntNumber>(number: I, step: I) -> I
    requires not_negative { pos 0 ≤ℤ I.whole number }
    requires number { Within I.limit (I.whole number) }
    requires step { IsGridStep I.limit (I.whole step) }
    ensures { IsRemainder (I.whole number) (I.whole step) (I.whole result) }
{
    if is_less(number, step) {
        return number;
    }
    let rest = number.minus(step);
    if is_less(rest, step) {
        return rest;
    }
    let of_two = remainder(number, step.plus(step));
    if is_less(of_two, step) {
        of_two
    } else {
        of_two.minus(step)
    }
}

/// Returns whether the one coordinate is less than the other.
pub(crate) fn is_less<I: IntNumber>(one: I, other: I) -> bool
    ensures { result ≡ int_lt (I.whole one) (I.whole other) }
{
    one.compare(other).is_lt()
}
