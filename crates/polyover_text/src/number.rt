//! Numbers in words.

ghost use Rattle.std.specs.Prelude.{◌≡◌, ◌≢◌, ◌↔◌, IsTrue, MatchOption, ℕ, ℤ};
ghost use Rattle.std.specs.List.{slice_index};
ghost use Rattle.std.specs.Str.Parse.{IsNumeral};
ghost use Rattle.polyover_text.specs.Grammar.{IsNumber, IsCoordinate, IsArea, IsSide};

use overlay_geom::number::IntNumber;

/// The coordinate that a word writes, or `None` where the word is no number in the coordinate range.
pub(crate) fn parse_coordinate(word: &[u8]) -> Option<i64>
    ensures { MatchOption result
        ((c : ℤ) → ¬ (IsCoordinate word.now c))
        (λ c. IsCoordinate word.now c) }
{
    match number_text(word)?.parse::<i64>() {
        Ok(number) if number.is_in_range() => Some(number),
        _ => None,
    }
}

/// The area that a word writes, or `None` where the word is no number from 0 to 2^127 - 1.
pub(crate) fn parse_area(word: &[u8]) -> Option<u128>
    ensures { MatchOption result
        ((n : ℕ) → ¬ (IsArea word.now n))
        (λ n. IsArea word.now n) }
{
    match number_text(word)?.parse::<i128>() {
        Ok(number) => u128::try_from(number).ok(),
        Err(_) => None,
    }
}

/// The side of a cell that a word writes: the number, or 0 where that is out of the coordinate range. `None` where the
/// word is no number.
pub(crate) fn parse_side(word: &[u8]) -> Option<i64>
    ensures { MatchOption result
        ((side : ℤ) → ¬ (IsSide word.now side))
        (λ side. IsSide word.now side) }
{
    if let Some(side) = parse_coordinate(word) {
        return Some(side);
    }
    if is_number(word) { Some(0) } else { None }
}

// Whether the word is a number, of whatever size.
fn is_number(word: &[u8]) -> bool
    ensures { IsTrue result ↔ ((c : ℤ) × IsNumber word.now c) }
{
    let Some((first, rest)) = word.split_first() else {
        return false;
    };
    if *first == b'-' {
        return is_numeral(rest);
    }
    is_numeral(word)
}

// Whether the bytes are decimal digits, one or more.
fn is_numeral(bytes: &[u8]) -> bool
    ensures { IsTrue result ↔ IsNumeral 10 bytes.now }
{
    let mut left = bytes;
    while let Some((first, rest)) = left.split_first() {
        if !first.is_ascii_digit() {
            return false;
        }
        left = rest;
    }
    !bytes.is_empty()
}

// The word as a text that does not begin with a plus sign, which `parse` takes and the grammar doesn't.
fn number_text(word: &[u8]) -> Option<&str>
    ensures { MatchOption result
        ((c : ℤ) → ¬ (IsNumber word.now c))
        (λ text. (text.now ≡ word.now) × (slice_index text.now 0 ≢ 43)) }
{
    let Ok(text) = str::from_utf8(word) else {
        return None;
    };
    if text.starts_with('+') {
        return None;
    }
    Some(text)
}
