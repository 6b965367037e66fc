// GENERATE: which transaction it makes next.
ghost use Rattle.std.specs.Prelude.{option_copied};
ghost use Rattle.gw_meaning.specs.Step.{generate_prog};
ghost use Rattle.gw_values.specs.Contexts.{DecidesIn};

use gw_asking::Notes;
use gw_expr::{Expr, Halt, Stop};
use gw_meaning::{Change, Fate, Move, StatementId, Transaction};
use gw_values::{Context, arrival, for_none};

/// GENERATE: the transaction comes off it, and the next one is made, if any. X8 where it came from another block; else
/// it stops as [`gw_values::arrival`] does.
#[inline(always)]
pub fn decide_generate(
    context: Context,
    notes: &mut Notes,
    x: &Transaction,
    id: StatementId,
    mean: Option<&Expr>,
    range: Option<&Expr>,
    limit: Option<&Expr>,
    priority: Option<&Expr>,
) -> Result<Move, Halt>
    ensures { DecidesIn context.entry (λ s q. generate_prog s x.now id (option_copied mean.entry)
        (option_copied range.entry) (option_copied limit.entry) (option_copied priority.entry))
        result notes.old notes.new }
{
    if x.current.number() != 0 {
        return Err(Halt::stop(Stop::NoNextBlock));
    }
    let context = Context {
        asker: &for_none(context.state.remaining()),
        ..context
    };
    let next = arrival(context, notes, id, mean, range, limit, priority)?;
    Ok(Move::Enter {
        id,
        change: Change::Generate { next },
        fate: Fate::Active,
    })
}
