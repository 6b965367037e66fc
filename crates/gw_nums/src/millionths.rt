ghost use Rattle.std.specs.Prelude.{◌≡◌, pos, ◌*ℤ◌, ◌<◌, ◌≤◌, ◌↔◌, IsTrue, IsSome, IfSome, Some, None, if◌then◌else◌};
ghost use Rattle.gw_nums.specs.Range.{is_value, is_below};
ghost use Rattle.gw_nums.specs.Millionths.{is_millionths, quotient_down, of_value, whole, times, distance, toward};

use crate::val::Val;
use std::marker::Model;

/// The millionths of the greatest value, and of the least one without its sign.
const MOST: i64 = 1_000_000_000_000_000;

/// A number with six decimals, in millionths: -1,000,000,000 to 1,000,000,000.
#[derive(Clone, Copy, PartialEq, Eq, PartialOrd, Ord)]
pub struct Millionths {
    value: i64,
}

impl Model for Millionths {
    ghost use Rattle.std.specs.Prelude.{ℤ, IsTrue};
    ghost use Rattle.gw_nums.specs.Millionths.{is_millionths};

    ghost Value = { ℤ };

    ghost view = { λ m. m.value };

    ghost invariant = { λ m. IsTrue (is_millionths m.value) };

    ghost inverse = { λ z. record { value = z } };
}

impl Millionths {
    /// The number of so many millionths, where it is in range.
    pub fn new(value: i64) -> Option<Millionths>
        ensures in_range { IsSome result ↔ IsTrue (is_millionths value) }
        ensures value { IfSome result (λ m. m ≡ value) }
    {
        if -MOST <= value && value <= MOST {
            Some(Millionths { value })
        } else {
            None
        }
    }

    /// The value, in millionths.
    pub fn of_value(value: Val) -> Millionths
        ensures { result ≡ of_value value }
    {
        Millionths {
            value: value.get() * 1_000_000,
        }
    }

    /// So many millionths.
    pub fn part(millionths: u32) -> Millionths
        ensures { result ≡ pos millionths }
    {
        Millionths {
            value: millionths as i64,
        }
    }

    /// The number, in millionths.
    pub fn get(self) -> i64
        ensures value { result ≡ self }
        ensures in_range { IsTrue (is_millionths self) }
    {
        self.value
    }

    /// The greatest value that is not above the number.
    pub fn whole(self) -> Val
        ensures { result ≡ whole self }
    {
        Val::known(quotient_down(self.value as i128, 1_000_000) as i64)
    }

    /// Whether the number is below the other.
    pub fn is_below(self, other: Millionths) -> bool
        ensures { result ≡ is_below self other }
    {
        self.value < other.value
    }

    /// How far two numbers are apart, in millionths.
    pub fn distance(self, other: Millionths) -> u64
        ensures value { result ≡ distance self other }
        ensures bound { result ≤ 2000000000000000 }
    {
        (self.value - other.value).unsigned_abs()
    }

    /// Where one is that goes so many parts, of all that there are, of the way to another number. It is divided
    /// downwards.
    pub fn toward(self, other: Millionths, part: u64, all: u64) -> Millionths
        requires within { part ≤ all }
        requires some { 0 < all }
        requires few { all ≤ 2000000000000000 }
        ensures { result ≡ toward self other part all }
    {
        let way = quotient_down(product(other.value - self.value, part as i64), all);
        Millionths {
            value: self.value + way as i64,
        }
    }
}

/// A value times a number in millionths, divided downwards, where that is a value.
pub fn times(value: Val, by: Millionths) -> Option<Val>
    ensures { result ≡ (if is_value (times value by) then Some (times value by) else None) }
{
    Val::new(quotient_down(product(value.get(), by.value), 1_000_000) as i64)
}

// A product, which fits 128 bits.
fn product(a: i64, b: i64) -> i128
    ensures { result ≡ a *ℤ b }
{
    a as i128 * b as i128
}

// A whole quotient, divided downwards.
fn quotient_down(a: i128, n: u64) -> i128
    requires { 0 < n }
    ensures { result ≡ quotient_down a n }
{
    if a < 0 {
        -1 - ((-1 - a).unsigned_abs() / n as u128) as i128
    } else {
        (a.unsigned_abs() / n as u128) as i128
    }
}
