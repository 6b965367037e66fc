ghost use Rattle.std.specs.Prelude.{◌≡◌, ◌≤◌, IfSome};
ghost use Rattle.gw_lines.specs.Numbers.{number_of, number_after, value_of, from_one, fraction_of, decimal_of, coordinate_of};

use crate::class::{Class, piece};
use gw_nums::{Millionths, Val};

/// The greatest value.
pub const LIMIT: u32 = 1_000_000_000;

// One, and the greatest number of a point, in millionths.
const MILLION: u32 = 1_000_000;

const GREATEST: u64 = 1_000_000_000_000_000;

/// The number that digits spell, if it is at most `most`.
pub fn number(most: u32, text: &[u8]) -> Option<u32>
    ensures value { result ≡ number_of most text.now }
    ensures bound { IfSome result (λ n. n ≤ most) }
{
    if text.is_empty() {
        return None;
    }
    Some(number_after(u64::from(most), 0, text)? as u32)
}

// The number that digits spell after those of `first`, if it is at most `most`.
fn number_after(most: u64, first: u64, text: &[u8]) -> Option<u64>
    requires small { first ≤ most }
    requires fits { most ≤ 1000000000000000 }
    ensures value { result ≡ number_after most first text.now }
    ensures bound { IfSome result (λ n. n ≤ most) }
{
    let mut number = first;
    for b in text {
        if !b.is_ascii_digit() {
            return None;
        }
        number = number * 10 + u64::from(*b - b'0');
        if number > most {
            return None;
        }
    }
    Some(number)
}

/// The number from 1 that digits spell, if it is at most `most`.
pub(crate) fn from_one(most: u32, text: &[u8]) -> Option<u32>
    ensures value { result ≡ from_one (number_of most text.now) }
    ensures bound { IfSome result (λ n. n ≤ most) }
{
    match number(most, text) {
        Some(0) | None => None,
        Some(n) => Some(n),
    }
}

/// The value that a text spells: a number, with one `-` before it or none.
pub fn value(text: &[u8]) -> Option<Val>
    ensures { result ≡ value_of text.now }
{
    match text {
        [] => None,
        [first, digits @ ..] => {
            if *first == b'-' {
                Val::new(-i64::from(number(LIMIT, digits)?))
            } else {
                Val::new(i64::from(number(LIMIT, text)?))
            }
        }
    }
}

/// The fraction that a text spells, in millionths: digits with a point, six of them at most after it, from 0 to 1.
pub fn fraction(text: &[u8]) -> Option<u32>
    ensures value { result ≡ fraction_of 1000000 text.now }
    ensures bound { IfSome result (λ n. n ≤ 1000000) }
{
    Some(pointed(u64::from(MILLION), text)? as u32)
}

/// The number of a point that a text spells: digits with a point or without one, six of them at most after it, with
/// one `-` before them or none, from -1,000,000,000 to 1,000,000,000.
pub(crate) fn coordinate(text: &[u8]) -> Option<Millionths>
    ensures { result ≡ coordinate_of text.now }
{
    match text {
        [] => None,
        [first, digits @ ..] => {
            if *first == b'-' {
                Millionths::new(-(decimal(digits)? as i64))
            } else {
                Millionths::new(decimal(text)? as i64)
            }
        }
    }
}

// The millionths that a text spells: a number, or one with a point.
fn decimal(text: &[u8]) -> Option<u64>
    ensures value { result ≡ decimal_of text.now }
    ensures bound { IfSome result (λ n. n ≤ 1000000000000000) }
{
    match number(LIMIT, text) {
        Some(n) => Some(u64::from(n) * u64::from(MILLION)),
        None => pointed(GREATEST, text),
    }
}

// The millionths that digits with a point spell, if they are at most `most`.
fn pointed(most: u64, text: &[u8]) -> Option<u64>
    requires fits { most ≤ 1000000000000000 }
    ensures value { result ≡ fraction_of most text.now }
    ensures bound { IfSome result (λ n. n ≤ most) }
{
    let (whole, has_point, decimals) = piece(Class::Whole, text);
    if !has_point || text.len() < 2 || decimals.len() > 6 {
        return None;
    }
    let number = number_after(most, 0, whole)?;
    let number = number_after(most, number, decimals)?;
    let zeros = b"000000".as_slice();
    number_after(most, number, &zeros[decimals.len()..])
}
