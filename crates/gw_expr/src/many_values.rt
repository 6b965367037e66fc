ghost use Rattle.std.specs.Prelude.{◌≡◌, ◌<◌, ◌≤◌, ◌∷◌, [], OnOk, OnErr, length};
ghost use Rattle.gw_expr.specs.Evaluation.{negated_last, applied_last, last_value};
ghost use Rattle.gw_expr.specs.WaitingValues.{Pops};
ghost use Rattle.gw_expr.specs.Worlds.{Comes, in_place};

use crate::halt::Halt;
use crate::stop::Stop;
use crate::token::Operator;
use arrayvec::ArrayVec;
use gw_nums::Val;
use std::alloc::AllocError;
use std::marker::Model;

// How many values may wait. No expression on a line of 250 bytes, with parentheses 32 deep, has more than 67 that do.
const MOST: usize = 128;

// The values of an expression that wait for their operator, the last one first, where they may be many. They lie in
// an array; one more than it holds is out of memory.
#[derive(Drop)]
pub struct ManyValues {
    values: ArrayVec<Val, MOST>,
}

impl Model for ManyValues {
    ghost use Rattle.std.specs.Prelude.{◌≤◌, ℤ, List, length, reverse};

    ghost Value = { List ℤ };

    ghost view = { λ w. reverse w.values.items };

    // The 128 here and below is MOST.
    ghost invariant = { λ w. length w.values.items ≤ 128 };
}

impl ManyValues {
    // No value.
    pub(crate) fn new() -> ManyValues
        ensures { result ≡ [] }
    {
        ManyValues {
            values: ArrayVec::new(),
        }
    }

    // One value more waits.
    pub(crate) fn push(&mut self, value: Val) -> Result<(), AllocError>
        ensures ok { OnOk result (self.new ≡ value ∷ self.old) }
        ensures full { OnErr result (length self.old ≡ 128) }
        ensures unchanged { OnErr result (self.new ≡ self.old) }
    {
        match self.values.try_push(value) {
            Ok(()) => Ok(()),
            Err(_) => Err(AllocError),
        }
    }

    // Takes the last value, if any waits.
    pub(crate) fn pop(&mut self) -> Option<Val>
        ensures last { Pops self.old result self.new }
        ensures room { length self.new < 128 }
    {
        self.values.pop()
    }

    // The last value with the other sign.
    pub(crate) fn negate_last(&mut self) -> Result<(), Halt>
        ensures { Comes (negated_last self.old) (in_place result self.new) }
    {
        let Some(value) = self.pop() else {
            return Err(Halt::stop(Stop::Range));
        };
        self.push(value.negated())?;
        Ok(())
    }

    // What an operator makes of the last two values.
    pub(crate) fn apply_last(&mut self, operator: Operator) -> Result<(), Halt>
        ensures { Comes (applied_last operator self.old) (in_place result self.new) }
    {
        let Some(b) = self.pop() else {
            return Err(Halt::stop(Stop::Range));
        };
        let Some(a) = self.pop() else {
            return Err(Halt::stop(Stop::Range));
        };
        let value = operator.value(a, b)?;
        self.push(value)?;
        Ok(())
    }

    // The value that is left.
    pub(crate) fn last(&mut self) -> Result<Val, Halt>
        ensures { Comes (last_value self.old) result }
    {
        match self.pop() {
            Some(value) => Ok(value),
            None => Err(Halt::stop(Stop::Range)),
        }
    }
}
