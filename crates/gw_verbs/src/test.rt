// TEST: a relation of two values that holds, leads elsewhere, or is waited for.
ghost use Rattle.std.specs.Prelude.{◌≡◌, Some, None, Ok, option_copied};
ghost use Rattle.gw_meaning.specs.Step.{holds, lead_to, pass_or_wait, test_or_wait, test_prog};
ghost use Rattle.gw_asking.specs.Deciding.{Comes};
ghost use Rattle.gw_values.specs.Contexts.{DecidesIn};

use crate::entering::pass;
use crate::leading::lead_to;
use gw_asking::Notes;
use gw_expr::{Expr, Halt, Row};
use gw_meaning::{Auxiliary, Move, StatementId, Watched};
use gw_nums::Val;
use gw_values::{Context, value_there, value_traced};

/// TEST: the transaction goes on where the relation of two values holds. Else it goes to the block with the label, or,
/// where no label stands there, waits for a change of what they read.
#[inline(always)]
pub fn decide_test(
    context: Context,
    notes: &mut Notes,
    id: StatementId,
    relation: Auxiliary,
    first: Option<&Expr>,
    second: Option<&Expr>,
    label: Option<&Expr>,
) -> Result<Move, Halt>
    ensures { DecidesIn context.entry (λ s q. test_prog s q id relation (option_copied first.entry)
        (option_copied second.entry) (option_copied label.entry)) result notes.old notes.new }
{
    match label {
        Some(label) => test_or_lead(context, notes, id, relation, first, second, label),
        None => test_or_wait(context, notes, id, relation, first, second),
    }
}

#[inline(always)]
fn test_or_lead(
    context: Context,
    notes: &mut Notes,
    id: StatementId,
    relation: Auxiliary,
    first: Option<&Expr>,
    second: Option<&Expr>,
    label: &Expr,
) -> Result<Move, Halt>
    ensures { DecidesIn context.entry (λ s q. test_prog s q id relation (option_copied first.entry)
        (option_copied second.entry) (Some label.now)) result notes.old notes.new }
{
    let first = value_there(context, notes, first)?;
    let second = value_there(context, notes, second)?;
    if holds(relation, first, second) {
        return Ok(pass(id));
    }
    lead_to(context.run, notes, id, Some(label))
}

#[inline(always)]
fn test_or_wait(
    context: Context,
    notes: &mut Notes,
    id: StatementId,
    relation: Auxiliary,
    first: Option<&Expr>,
    second: Option<&Expr>,
) -> Result<Move, Halt>
    ensures { DecidesIn context.entry (λ s q. test_or_wait s q id relation (option_copied first.entry)
        (option_copied second.entry)) result notes.old notes.new }
{
    let mut read = Vec::new(context.run.alloc);
    let first = value_traced(context, notes, &mut read, first)?;
    let second = value_traced(context, notes, &mut read, second)?;
    Ok(pass_or_watch(id, holds(relation, first, second), read))
}

// The block is entered, or the transaction waits for a change of what was read.
#[inline(always)]
fn pass_or_watch(id: StatementId, passes: bool, read: Vec<Watched>) -> Move
    ensures { Comes (pass_or_wait id None read.items passes) (Ok result) }
{
    if passes {
        return pass(id);
    }
    let read = Row::from_vec(read);
    Move::Watch { read }
}

// Whether the relation of one value to another holds.
#[inline(always)]
fn holds(relation: Auxiliary, first: Val, second: Val) -> bool
    ensures { result ≡ holds relation first second }
{
    match relation {
        Auxiliary::Equal => first == second,
        Auxiliary::NotEqual => first != second,
        Auxiliary::Greater => first > second,
        Auxiliary::GreaterOrEqual => first >= second,
        Auxiliary::Less => first < second,
        Auxiliary::LessOrEqual => first <= second,
        _ => false,
    }
}
