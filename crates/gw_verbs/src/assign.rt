// ASSIGN: a parameter of a transaction gets a value.
ghost use Rattle.std.specs.Prelude.{◌≡◌, option_copied};
ghost use Rattle.gw_meaning.specs.Evaluation.{arithmetic};
ghost use Rattle.gw_meaning.specs.Step.{by_sign, or_zero, assign_with, assign_prog};
ghost use Rattle.gw_asking.specs.Deciding.{Comes};
ghost use Rattle.gw_values.specs.Contexts.{DecidesIn};

use crate::entering::enter_with;
use gw_asking::Notes;
use gw_expr::{Expr, Halt, Operator, Stop};
use gw_meaning::{Auxiliary, Move, StatementId, TransactionChange};
use gw_names::Key;
use gw_nums::{ArithmeticFault, Val};
use gw_values::{Context, key_of, value_there};

/// ASSIGN: a parameter is set, or B is added to it or taken from it; an absent one counts as 0 then. X7 where what
/// comes of it is no value.
#[inline(always)]
pub fn decide_assign(
    context: Context,
    notes: &mut Notes,
    id: StatementId,
    sign: Auxiliary,
    parameter: Option<&Expr>,
    value: Option<&Expr>,
) -> Result<Move, Halt>
    ensures { DecidesIn context.entry (λ s q. assign_prog s q id sign (option_copied parameter.entry)
        (option_copied value.entry)) result notes.old notes.new }
{
    let key = key_of(context, notes, parameter)?;
    let value = value_there(context, notes, value)?;
    let was = context.state.parameters().get(context.asker.number, &key);
    assign_with(id, sign, key, was, value)
}

#[inline(always)]
fn assign_with(
    id: StatementId,
    sign: Auxiliary,
    key: Key,
    was: Option<Val>,
    value: Val,
) -> Result<Move, Halt>
    ensures { Comes (assign_with id sign key was value) result }
{
    let to = arithmetic(by_sign(sign, was, value))?;
    Ok(enter_with(id, TransactionChange::Assign { key, to }))
}

// What a value makes of a parameter or a savevalue, by the sign before it.
#[inline(always)]
pub(crate) fn by_sign(sign: Auxiliary, was: Option<Val>, value: Val) -> Result<Val, ArithmeticFault>
    ensures { result ≡ by_sign sign was value }
{
    match sign {
        Auxiliary::Plus => Operator::Plus.apply(or_zero(was), value),
        Auxiliary::Minus => Operator::Minus.apply(or_zero(was), value),
        _ => Ok(value),
    }
}

#[inline(always)]
fn or_zero(value: Option<Val>) -> Val
    ensures { result ≡ or_zero value }
{
    match value {
        Some(value) => value,
        None => Val::ZERO,
    }
}

// What an operator comes to.
#[inline(always)]
pub(crate) fn arithmetic(found: Result<Val, ArithmeticFault>) -> Result<Val, Halt>
    ensures { Comes (arithmetic found) result }
{
    match found {
        Ok(value) => Ok(value),
        Err(ArithmeticFault::Range) => Err(Halt::stop(Stop::Range)),
        Err(ArithmeticFault::ZeroDivisor) => Err(Halt::stop(Stop::ZeroDivisor)),
    }
}
