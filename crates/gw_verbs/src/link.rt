// LINK: a transaction goes to a user chain.
ghost use Rattle.std.specs.Prelude.{◌≡◌, Ok, option_copied};
ghost use Rattle.gw_meaning.specs.Step.{link_prog, leaving_prog};
ghost use Rattle.gw_meaning.specs.declared.moves.Change.TheVariants as changes;
ghost use Rattle.gw_meaning.specs.declared.moves.Fate.TheVariants as fates;
ghost use Rattle.gw_meaning.specs.declared.moves.Move.TheVariants as moves;
ghost use Rattle.gw_values.specs.Contexts.{DecidesIn};

use crate::entering::enter_for;
use gw_asking::Notes;
use gw_expr::{Discipline, Expr, Halt, Stop};
use gw_meaning::{Fate, Move, StatementId};
use gw_names::Key;
use gw_values::{Context, key_of, units_of};

/// LINK: the transaction goes to the back of a user chain by FIFO, to the front by LIFO.
#[inline(always)]
pub fn decide_link(
    context: Context,
    notes: &mut Notes,
    id: StatementId,
    entity: Option<&Expr>,
    order: Option<&Expr>,
) -> Result<Move, Halt>
    ensures { DecidesIn context.entry (λ s q. link_prog s q id (option_copied entity.entry) (option_copied order.entry))
        result notes.old notes.new }
{
    let Some(expr) = order else {
        return Err(Halt::stop(Stop::NoNextBlock));
    };
    match expr {
        Expr::Order(discipline) => {
            let key = key_of(context, notes, entity)?;
            Ok(link_to(id, key, *discipline))
        }
        _ => Err(Halt::stop(Stop::NoNextBlock)),
    }
}

// How many leave of so many: all, or no more than the count says.
#[inline(always)]
pub(crate) fn leaving(
    context: Context,
    notes: &mut Notes,
    count: Option<&Expr>,
    there: u64,
) -> Result<u64, Halt>
    ensures { DecidesIn context.entry (λ s q. leaving_prog s q (option_copied count.entry) there)
        result notes.old notes.new }
{
    let Some(expr) = count else {
        return Ok(there);
    };
    let units = units_of(context, notes, Some(expr))?;
    Ok(u64::from(units).min(there))
}

#[inline(always)]
fn link_to(id: StatementId, key: Key, discipline: Discipline) -> Move
    ensures { result ≡ moves.Enter id changes.Nothing (fates.Linked key discipline) }
{
    enter_for(id, Fate::Linked { key, discipline })
}
