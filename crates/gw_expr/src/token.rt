ghost use Rattle.std.specs.Prelude.{◌≡◌};
ghost use Rattle.gw_expr.specs.Arithmetic.{applied};
ghost use Rattle.gw_expr.specs.Evaluation.{arithmetic};
ghost use Rattle.gw_expr.specs.Worlds.{Comes};

use crate::atom::Atom;
use crate::halt::Halt;
use crate::stop::Stop;
use gw_nums::{ArithmeticFault, Val, add, div, mul, rem, sub};

/// An operator between two values.
#[derive(Clone, Copy, PartialEq, Eq)]
pub enum Operator {
    /// `#`
    Times,
    /// `\`: the whole quotient, cut off towards zero.
    Quotient,
    /// `@`: the remainder, with the dividend's sign.
    Remainder,
    /// `+`
    Plus,
    /// `-`
    Minus,
}

/// A part of an expression in postfix order: an operator stands after its operands.
#[derive(Clone, Drop, PartialEq, Eq)]
pub enum Token {
    /// A value.
    Value(Atom),
    /// The value before it, with the other sign.
    Negated,
    /// What an operator makes of the two values before it.
    Applied(Operator),
}

impl Operator {
    /// What the operator makes of two values, or why there is no value.
    pub fn apply(self, a: Val, b: Val) -> Result<Val, ArithmeticFault>
        ensures { result ≡ applied self a b }
    {
        match self {
            Operator::Times => mul(a, b),
            Operator::Quotient => div(a, b),
            Operator::Remainder => rem(a, b),
            Operator::Plus => add(a, b),
            Operator::Minus => sub(a, b),
        }
    }

    // The same in an evaluation, which stops where there is no value.
    #[inline(always)]
    pub(crate) fn value(self, a: Val, b: Val) -> Result<Val, Halt>
        ensures { Comes (arithmetic (applied self a b)) result }
    {
        match self.apply(a, b) {
            Ok(value) => Ok(value),
            Err(ArithmeticFault::Range) => Err(Halt::stop(Stop::Range)),
            Err(ArithmeticFault::ZeroDivisor) => Err(Halt::stop(Stop::ZeroDivisor)),
        }
    }
}
