// TERMINATE: a transaction is destroyed.
ghost use Rattle.std.specs.Prelude.{option_copied};
ghost use Rattle.gw_meaning.specs.Step.{terminate_prog};
ghost use Rattle.gw_values.specs.Contexts.{DecidesIn};

use crate::entering::enter_for;
use gw_asking::Notes;
use gw_expr::{Expr, Halt, Stop};
use gw_meaning::{Fate, Move, StatementId};
use gw_values::{Context, value_or_zero};

/// TERMINATE: the transaction is destroyed, and takes A, or 0, from the termination count. X11 where A is below 0.
#[inline(always)]
pub fn decide_terminate(
    context: Context,
    notes: &mut Notes,
    id: StatementId,
    count: Option<&Expr>,
) -> Result<Move, Halt>
    ensures { DecidesIn context.entry (λ s q. terminate_prog s q id (option_copied count.entry))
        result notes.old notes.new }
{
    let count = value_or_zero(context, notes, count)?;
    if count.is_negative() {
        return Err(Halt::stop(Stop::BadCount));
    }
    let count = count.magnitude();
    Ok(enter_for(id, Fate::Destroyed { count }))
}
