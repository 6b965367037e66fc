// SEIZE: a transaction takes a facility.
ghost use Rattle.std.specs.Prelude.{option_copied};
ghost use Rattle.gw_meaning.specs.Step.{seize_or_wait, seize_prog};
ghost use Rattle.gw_asking.specs.Deciding.{Comes};
ghost use Rattle.gw_values.specs.Contexts.{DecidesIn};

use crate::entering::enter_doing;
use gw_asking::Notes;
use gw_expr::{Expr, Halt};
use gw_meaning::{FacilityUpdate, Move, StatementId, Update};
use gw_names::Key;
use gw_values::{Context, key_of};

/// SEIZE: a facility is taken, or waited for where it is owned, also by the transaction itself.
#[inline(always)]
pub fn decide_seize(
    context: Context,
    notes: &mut Notes,
    id: StatementId,
    entity: Option<&Expr>,
) -> Result<Move, Halt>
    ensures { DecidesIn context.entry (λ s q. seize_prog s q id (option_copied entity.entry))
        result notes.old notes.new }
{
    let key = key_of(context, notes, entity)?;
    let owned = context.state.entities().facility(&key).is_owned();
    seize_or_wait(id, key, owned)
}

#[inline(always)]
fn seize_or_wait(id: StatementId, key: Key, owned: bool) -> Result<Move, Halt>
    ensures { Comes (seize_or_wait id key owned) result }
{
    if owned {
        return Ok(Move::Refuse { id, key, units: 1 });
    }
    Ok(enter_doing(id, key, Update::Facility(FacilityUpdate::Seize)))
}
