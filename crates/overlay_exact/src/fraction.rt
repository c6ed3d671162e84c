//! Fractions whose products may fit no number type, compared by Euclid's algorithm.

ghost use Rattle.std.specs.Prelude.{◌≡◌, ◌*◌, ◌<◌};
ghost use Rattle.std.specs.Ordering.{nat_cmp};

use std::cmp::Ordering;

/// Compares `n / d` with `m / c`. Where a product does not fit, it compares the quotients and then the remainders,
/// turned over. No number gets greater than those given.
#[cycle(by_quotients)]
pub(crate) fn compare_fractions(n: u128, d: u128, m: u128, c: u128) -> Ordering
    requires divides { 0 < d }
    requires divides_other { 0 < c }
    ensures { result ≡ nat_cmp (n * c) (m * d) }
{
    if let (Some(left), Some(right)) = (n.checked_mul(c), m.checked_mul(d)) {
        return left.cmp(&right);
    }
    match (n / d).cmp(&(m / c)) {
        Ordering::Equal => compare_rests(n % d, d, m % c, c),
        other => other,
    }
}

// Compares `r / d` with `t / c`, both less than 1. Where neither is 0, they compare as `c / t` with `d / r`.
#[cycle(by_quotients)]
fn compare_rests(r: u128, d: u128, t: u128, c: u128) -> Ordering
    requires rest { r < d }
    requires rest_of_other { t < c }
    ensures { result ≡ nat_cmp (r * c) (t * d) }
{
    if r == 0 || t == 0 {
        r.cmp(&t)
    } else {
        compare_fractions(c, t, d, r)
    }
}
