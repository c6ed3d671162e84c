//! Rounded interpolation between two coordinates. The product of a coordinate difference and a cross product has up to
//! 190 bits. Where it exceeds 128 bits, it is divided while it is built up.

ghost use Rattle.std.specs.Prelude.{◌≡◌, ◌+◌, ◌*◌, ◌^◌, ◌<◌, ◌≤◌};
ghost use Rattle.std.specs.Prelude.{pos, neg_ℤ, ◌+ℤ◌, ◌-ℤ◌, ◌*ℤ◌, ◌<ℤ◌, ◌≤ℤ◌};
ghost use Rattle.overlay_geom.specs.Numbers.{Within, greatest_of_64_bits};
ghost use Rattle.overlay_geom.specs.Rounding.{nearest};

use std::num::saturating_f64_to_i64;

// The least number that takes more than 64 bits.
const LONG: u128 = 18446744073709551616;

// Up to this number each whole number is a floating-point number.
const EXACT: u64 = 9007199254740992;

// By how much greater numbers are divided to come below that.
const LOST: u64 = 2048;

// How much a guessed quotient is enlarged before it is rounded down, so that whole quotients are met.
const MARGIN: f64 = 0.0009765625;

/// Returns the coordinate nearest to the point `t / d` of the way from `from` to `to`. Of two equally near coordinates
/// it returns the greater.
pub(crate) fn nearest_on_way(from: i64, to: i64, t: i128, d: i128) -> i64
    requires from { Within greatest_of_64_bits from }
    requires to { Within greatest_of_64_bits to }
    requires begun { pos 0 ≤ℤ t }
    requires part { t ≤ℤ d }
    requires divides { pos 0 <ℤ d }
    ensures { result ≡ nearest (from *ℤ d +ℤ (to -ℤ from) *ℤ t) d }
{
    let d = d as u128;
    let (q, r) = times_quotient(to.abs_diff(from), t as u128, d);
    if from <= to {
        from + half_up(q, r, d) as i64
    } else {
        from - half_down(q, r, d) as i64
    }
}

// Returns the whole number nearest to `q + r / d`, and the greater of two equally near.
fn half_up(q: u64, r: u128, d: u128) -> u64
    requires room { q < 2 ^ 63 }
    requires fits { d < 2 ^ 127 }
    requires rest { r < d }
    ensures { pos result ≡ nearest (pos (q * d + r)) (pos d) }
{
    if 2 * r >= d { q + 1 } else { q }
}

// Returns the whole number nearest to `q + r / d`, and the smaller of two equally near.
fn half_down(q: u64, r: u128, d: u128) -> u64
    requires room { q < 2 ^ 63 }
    requires fits { d < 2 ^ 127 }
    requires rest { r < d }
    ensures { neg_ℤ (pos result) ≡ nearest (neg_ℤ (pos (q * d + r))) (pos d) }
{
    if 2 * r > d { q + 1 } else { q }
}

// Returns the quotient and the remainder of `n * t` by `d`. It divides once where the product fits 128 bits.
fn times_quotient(n: u64, t: u128, d: u128) -> (u64, u128)
    requires count { n < 2 ^ 63 }
    requires fits { d < 2 ^ 127 }
    requires part { t ≤ d }
    requires divides { 0 < d }
    ensures value { n * t ≡ result.0 * d + result.1 }
    ensures rest { result.1 < d }
    ensures most { result.0 ≤ n }
{
    if d < LONG {
        return short_quotient(n, t as u64, d as u64);
    }
    match u128::from(n).checked_mul(t) {
        Some(product) => ((product / d) as u64, product % d),
        None => doubled_quotient(n, t, d),
    }
}

// Returns the quotient and the remainder of `n * t` by `d`. A guess is tried before a division of 128 bits, which takes
// longer.
fn short_quotient(n: u64, t: u64, d: u64) -> (u64, u128)
    requires part { t ≤ d }
    requires divides { 0 < d }
    ensures value { n * t ≡ result.0 * d + result.1 }
    ensures rest { result.1 < d }
    ensures most { result.0 ≤ n }
{
    let product = u128::from(n) * u128::from(t);
    let guess = guessed_quotient(n, t, d);
    let whole = u128::from(guess) * u128::from(d);
    if whole <= product && product - whole < u128::from(d) {
        return (guess, product - whole);
    }
    let d = u128::from(d);
    ((product / d) as u64, product % d)
}

// Returns the quotient of `n * t` by `d` in nearly all cases, by floating-point numbers. It only serves as an estimate.
fn guessed_quotient(n: u64, t: u64, d: u64) -> u64
    requires { t ≤ d }
{
    if d < EXACT {
        guessed_ratio(n, t, d)
    } else {
        guessed_ratio(n, t / LOST, d / LOST)
    }
}

// Guesses the quotient of `n * t` by `d`, where floating-point numbers hold t and d exactly.
fn guessed_ratio(n: u64, t: u64, d: u64) -> u64
    requires part { t < 2 ^ 53 }
    requires whole { d < 2 ^ 53 }
{
    let quotient = n.min(EXACT) as f64 * t as f64 / d as f64;
    saturating_f64_to_i64(quotient + MARGIN).unsigned_abs()
}

// Returns the quotient and the remainder of `n * t` by `d`, computed bit by bit of `n`.
fn doubled_quotient(n: u64, t: u128, d: u128) -> (u64, u128)
    requires count { n < 2 ^ 63 }
    requires fits { d < 2 ^ 127 }
    requires part { t ≤ d }
    requires divides { 0 < d }
    ensures value { n * t ≡ result.0 * d + result.1 }
    ensures rest { result.1 < d }
    ensures most { result.0 ≤ n }
{
    if n == 0 {
        return (0, 0);
    }
    let (q, r) = doubled_quotient(n / 2, t, d);
    let (q, r) = carried(2 * q, 2 * r, d);
    if n % 2 == 1 {
        carried(q, r + t, d)
    } else {
        (q, r)
    }
}

// Carries `r` into `q`: turns a remainder below `2 * d` into a remainder below `d`. The value `q * d + r` stays.
fn carried(q: u64, r: u128, d: u128) -> (u64, u128)
    requires room { q < 2 ^ 63 }
    requires twice { r < d + d }
    ensures value { result.0 * d + result.1 ≡ q * d + r }
    ensures rest { result.1 < d }
{
    if r >= d { (q + 1, r - d) } else { (q, r) }
}
