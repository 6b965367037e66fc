ghost use Rattle.std.specs.Prelude.{◌≡◌, ◌≤◌, ◌↔◌, IsTrue, IsSome, IfSome};
ghost use Rattle.gw_nums.specs.Range.{is_value, sum_of, difference_of, product_of, quotient_of, remainder_of, negated, signed, magnitude, is_negative, is_below};

use std::marker::Model;
use thiserror::Error;

/// The greatest value, and the least without its sign.
pub const GREATEST: i64 = 1_000_000_000;

/// A value of the language: a whole number in -1,000,000,000 to 1,000,000,000.
#[derive(Clone, Copy, Default, PartialEq, Eq, PartialOrd, Ord, Hash)]
pub struct Val {
    value: i32,
}

impl Model for Val {
    ghost use Rattle.std.specs.Prelude.{ℤ, IsTrue};
    ghost use Rattle.gw_nums.specs.Range.{is_value};

    ghost Value = { ℤ };

    ghost view = { λ v. v.value };

    ghost invariant = { λ v. IsTrue (is_value v.value) };

    ghost inverse = { λ z. record { value = z } };
}

/// Why two values come to none.
#[derive(Clone, Copy, Debug, PartialEq, Eq, Error)]
pub enum ArithmeticFault {
    /// The result leaves the range of values.
    #[error("the result is outside -1000000000 to 1000000000")]
    Range,
    /// The divisor is 0.
    #[error("the divisor is 0")]
    ZeroDivisor,
}

impl Val {
    /// The value 0, which an absent operand mostly stands for.
    pub const ZERO: Val = Val { value: 0 };

    /// The number as a value, where it is in range.
    pub fn new(value: i64) -> Option<Val>
        ensures in_range { IsSome result ↔ IsTrue (is_value value) }
        ensures value { IfSome result (λ v. v ≡ value) }
    {
        if -GREATEST <= value && value <= GREATEST {
            Some(Val {
                value: value as i32,
            })
        } else {
            None
        }
    }

    // The number, which is a value.
    pub(crate) fn known(value: i64) -> Val
        requires { IsTrue (is_value value) }
        ensures { result ≡ value }
    {
        Val {
            value: value as i32,
        }
    }

    /// The number.
    pub fn get(self) -> i64
        ensures value { result ≡ self }
        ensures in_range { IsTrue (is_value self) }
    {
        i64::from(self.value)
    }

    /// The number without its sign, at most 1,000,000,000.
    pub fn magnitude(self) -> u64
        ensures value { result ≡ magnitude self }
        ensures bound { result ≤ 1000000000 }
    {
        u64::from(self.value.unsigned_abs())
    }

    /// Whether the value is below 0.
    pub fn is_negative(self) -> bool
        ensures { result ≡ is_negative self }
    {
        self.value < 0
    }

    /// The number with the other sign.
    pub fn negated(self) -> Val
        ensures { result ≡ negated self }
    {
        Val { value: -self.value }
    }

    /// Whether the value is below the other.
    pub fn is_below(self, other: Val) -> bool
        ensures { result ≡ is_below self other }
    {
        self.value < other.value
    }
}

/// The sum, where it is a value.
pub fn add(a: Val, b: Val) -> Result<Val, ArithmeticFault>
    ensures { result ≡ sum_of a b }
{
    Val::new(a.get() + b.get()).ok_or(ArithmeticFault::Range)
}

/// The difference, where it is a value.
pub fn sub(a: Val, b: Val) -> Result<Val, ArithmeticFault>
    ensures { result ≡ difference_of a b }
{
    Val::new(a.get() - b.get()).ok_or(ArithmeticFault::Range)
}

/// The product, where it is a value.
pub fn mul(a: Val, b: Val) -> Result<Val, ArithmeticFault>
    ensures { result ≡ product_of a b }
{
    Val::new(a.get() * b.get()).ok_or(ArithmeticFault::Range)
}

/// The whole quotient, cut off towards zero.
pub fn div(a: Val, b: Val) -> Result<Val, ArithmeticFault>
    ensures { result ≡ quotient_of a b }
{
    if b.value == 0 {
        return Err(ArithmeticFault::ZeroDivisor);
    }
    Ok(signed(
        a.is_negative() != b.is_negative(),
        a.magnitude() / b.magnitude(),
    ))
}

/// The remainder of the quotient that is cut off towards zero: its sign is the dividend's.
pub fn rem(a: Val, b: Val) -> Result<Val, ArithmeticFault>
    ensures { result ≡ remainder_of a b }
{
    if b.value == 0 {
        return Err(ArithmeticFault::ZeroDivisor);
    }
    Ok(signed(a.is_negative(), a.magnitude() % b.magnitude()))
}

// The number with this magnitude, below 0 where it is negative.
fn signed(is_negative: bool, magnitude: u64) -> Val
    requires { magnitude ≤ 1000000000 }
    ensures { result ≡ signed is_negative magnitude }
{
    let value = magnitude as i32;
    Val {
        value: if is_negative { -value } else { value },
    }
}
