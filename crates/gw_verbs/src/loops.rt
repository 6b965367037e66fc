// LOOP: a parameter counts down, and leads back while any is left.
ghost use Rattle.std.specs.Prelude.{◌≡◌, pos, option_copied};
ghost use Rattle.gw_meaning.specs.Evaluation.{arithmetic};
ghost use Rattle.gw_meaning.specs.Step.{left_of, loop_back, loop_to, loop_with, loop_prog};
ghost use Rattle.gw_asking.specs.Deciding.{Decides, Comes};
ghost use Rattle.gw_values.specs.Contexts.{DecidesIn};

use crate::assign::arithmetic;
use crate::entering::enter_with;
use gw_asking::{Notes, Run, ask_label};
use gw_expr::{Expr, Halt, Operator, Stop};
use gw_meaning::{Move, StatementId, TransactionChange};
use gw_names::Key;
use gw_nums::Val;
use gw_values::{Context, key_of};

/// LOOP: a parameter loses 1, and the transaction goes to the block with the label while it is not 0. X5 where it is
/// absent, X7 where what is left is no value.
#[inline(always)]
pub fn decide_loop(
    context: Context,
    notes: &mut Notes,
    id: StatementId,
    parameter: Option<&Expr>,
    label: Option<&Expr>,
) -> Result<Move, Halt>
    ensures { DecidesIn context.entry (λ s q. loop_prog s q id (option_copied parameter.entry)
        (option_copied label.entry)) result notes.old notes.new }
{
    let key = key_of(context, notes, parameter)?;
    let left = left_of(context.state.parameters().get(context.asker.number, &key))?;
    loop_with(context.run, notes, id, key, left, label)
}

// What a LOOP leaves of a parameter.
#[inline(always)]
fn left_of(was: Option<Val>) -> Result<Val, Halt>
    ensures { Comes (left_of was) result }
{
    match was {
        Some(value) => arithmetic(Operator::Minus.apply(value, one())),
        None => Err(Halt::stop(Stop::NoParameter)),
    }
}

#[inline(always)]
fn one() -> Val
    ensures { result ≡ pos 1 }
{
    match Val::new(1) {
        Some(one) => one,
        None => unreachable!(),
    }
}

// At 0 the transaction goes on to the next block, else back to the one with the label.
#[inline(always)]
fn loop_with(
    run: Run,
    notes: &mut Notes,
    id: StatementId,
    key: Key,
    left: Val,
    label: Option<&Expr>,
) -> Result<Move, Halt>
    ensures { Decides run.entry.version.now run.entry.seed
        (loop_with id key left (option_copied label.entry)) result notes.old notes.new }
{
    if left.magnitude() == 0 {
        let change = TransactionChange::Assign { key, to: left };
        return Ok(enter_with(id, change));
    }
    loop_to(run, notes, id, key, left, label)
}

#[inline(always)]
fn loop_to(
    run: Run,
    notes: &mut Notes,
    id: StatementId,
    key: Key,
    left: Val,
    label: Option<&Expr>,
) -> Result<Move, Halt>
    ensures { Decides run.entry.version.now run.entry.seed
        (loop_to id key left (option_copied label.entry)) result notes.old notes.new }
{
    let Some(expr) = label else {
        return Err(Halt::stop(Stop::NoNextBlock));
    };
    match expr {
        Expr::Label(name) => {
            let to = ask_label(run.version, notes, name)?;
            loop_back(id, key, left, to)
        }
        _ => Err(Halt::stop(Stop::NoNextBlock)),
    }
}

#[inline(always)]
fn loop_back(id: StatementId, key: Key, left: Val, to: Option<StatementId>) -> Result<Move, Halt>
    ensures { Comes (loop_back id key left to) result }
{
    match to {
        Some(to) => Ok(enter_with(id, TransactionChange::Loop { key, left, to })),
        None => Err(Halt::stop(Stop::NoNextBlock)),
    }
}
