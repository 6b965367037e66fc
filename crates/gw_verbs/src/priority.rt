// PRIORITY: a transaction gets another priority.
ghost use Rattle.std.specs.Prelude.{option_copied};
ghost use Rattle.gw_meaning.specs.Step.{priority_prog};
ghost use Rattle.gw_values.specs.Contexts.{DecidesIn};

use crate::entering::enter_with;
use gw_asking::Notes;
use gw_expr::{Expr, Halt};
use gw_meaning::{Move, StatementId, TransactionChange};
use gw_values::{Context, value_there};

/// PRIORITY: the transaction gets another priority, and stays active.
#[inline(always)]
pub fn decide_priority(
    context: Context,
    notes: &mut Notes,
    id: StatementId,
    priority: Option<&Expr>,
) -> Result<Move, Halt>
    ensures { DecidesIn context.entry (λ s q. priority_prog s q id (option_copied priority.entry))
        result notes.old notes.new }
{
    let to = value_there(context, notes, priority)?;
    Ok(enter_with(id, TransactionChange::Priority { to }))
}
