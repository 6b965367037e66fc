ghost use Rattle.std.specs.Prelude.{◌≡◌, ◌<◌, ◌≤◌, ◌∷◌, [], IsSome, OnOk, length, reverse};
ghost use Rattle.gw_expr.specs.Evaluation.{negated_last, applied_last, last_value};
ghost use Rattle.gw_expr.specs.Worlds.{Comes, in_place};
ghost use Rattle.gw_expr.specs.WaitingValues.{Pops, last_of, last_two, replaced, joined};

use crate::halt::Halt;
use crate::stop::Stop;
use crate::token::Operator;
use gw_nums::Val;
use std::marker::Model;

// How many values have a place: one for each part of a short expression.
pub(crate) const FEW: usize = 16;

// The values of an expression of at most so many parts that wait for their operator, the last one first. It holds no
// list: with one inside, the compiler reads the count from memory at each part.
#[derive(Drop)]
pub struct FewValues {
    few: [Val; FEW],
    // How many wait.
    count: usize,
}

impl Model for FewValues {
    ghost use Rattle.std.specs.Prelude.{◌≤◌, ℤ, List, reverse, take};

    ghost Value = { List ℤ };

    ghost view = { λ w. reverse (take w.count w.few) };

    // The 16 here and below is FEW.
    ghost invariant = { λ w. w.count ≤ 16 };
}

impl FewValues {
    // No value.
    #[inline(always)]
    pub(crate) fn new() -> FewValues
        ensures { result ≡ [] }
    {
        FewValues {
            few: [Val::ZERO; FEW],
            count: 0,
        }
    }

    // One value more waits.
    #[inline(always)]
    pub(crate) fn push(&mut self, value: Val)
        requires { length self.old < 16 }
        ensures { self.new ≡ value ∷ self.old }
    {
        let place = self.count;
        self.few[place] = value;
        self.count = place + 1;
    }

    // Takes the last value, if any waits.
    #[inline(always)]
    fn pop(&mut self) -> Option<Val>
        ensures last { Pops self.old result self.new }
        ensures room { length self.new < 16 }
    {
        if self.count == 0 {
            return None;
        }
        self.count -= 1;
        Some(self.few[self.count])
    }

    // The last value with the other sign.
    #[inline(always)]
    pub(crate) fn negate_last(&mut self) -> Result<(), Halt>
        ensures comes { Comes (negated_last self.old) (in_place result self.new) }
        ensures as_many { OnOk result (length self.new ≡ length self.old) }
    {
        let Some(value) = self.pop() else {
            return Err(Halt::stop(Stop::Range));
        };
        self.push(value.negated());
        Ok(())
    }

    // What an operator makes of the last two values.
    #[inline(always)]
    #[tactic(auto, using(crate::proofs::Waiting::joined_fewer))]
    pub(crate) fn apply_last(&mut self, operator: Operator) -> Result<(), Halt>
        ensures comes { Comes (applied_last operator self.old) (in_place result self.new) }
        ensures fewer { OnOk result (length self.new ≤ length self.old) }
    {
        let Some((a, b)) = self.last_two() else {
            return Err(Halt::stop(Stop::Range));
        };
        let value = operator.value(a, b)?;
        self.join_two(value);
        Ok(())
    }

    // The last two values, the last one after, if two wait.
    #[inline(always)]
    fn last_two(&self) -> Option<(Val, Val)>
        ensures { result ≡ last_two self.now }
    {
        if self.count < 2 {
            return None;
        }
        Some((self.few[self.count - 2], self.few[self.count - 1]))
    }

    // One value in place of the last two.
    #[inline(always)]
    fn join_two(&mut self, value: Val)
        requires { IsSome (last_two self.old) }
        ensures { self.new ≡ joined value self.old }
    {
        let _ = self.pop();
        self.set_last(value);
    }

    // One value in place of the last one.
    #[inline(always)]
    fn set_last(&mut self, value: Val)
        requires { IsSome (last_of self.old) }
        ensures { self.new ≡ replaced value self.old }
    {
        self.few[self.count - 1] = value;
    }

    // The value that is left.
    #[inline(always)]
    pub(crate) fn last(&self) -> Result<Val, Halt>
        ensures { Comes (last_value self.now) result }
    {
        if self.count == 0 {
            return Err(Halt::stop(Stop::Range));
        }
        Ok(self.few[self.count - 1])
    }
}
