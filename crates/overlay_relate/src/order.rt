//! The lesser and the greater of two coordinates.

ghost use Rattle.std.specs.Prelude.{◌≤ℤ◌};

use overlay_geom::number::IntNumber;

/// Returns the lesser of two numbers.
pub(crate) fn lesser<I: IntNumber>(x: I, y: I) -> I
    ensures first { I.whole result ≤ℤ I.whole x }
    ensures second { I.whole result ≤ℤ I.whole y }
{
    if y.compare(x).is_lt() { y } else { x }
}

/// Returns the greater of two numbers.
pub(crate) fn greater<I: IntNumber>(x: I, y: I) -> I
    ensures first { I.whole x ≤ℤ I.whole result }
    ensures second { I.whole y ≤ℤ I.whole result }
{
    if x.compare(y).is_lt() { y } else { x }
}
