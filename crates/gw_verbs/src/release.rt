// RELEASE: a transaction gives a facility back.
ghost use Rattle.std.specs.Prelude.{◌≡◌, option_copied};
ghost use Rattle.gw_meaning.specs.Machine.{delay_at};
ghost use Rattle.gw_meaning.specs.Step.{first_number, is_owner, release_to, release_prog};
ghost use Rattle.gw_asking.specs.Deciding.{Comes};
ghost use Rattle.gw_values.specs.Contexts.{DecidesIn};

use crate::entering::enter_doing;
use gw_asking::Notes;
use gw_expr::{Expr, Halt, Stop};
use gw_meaning::{FacilityUpdate, Move, StatementId, Transaction, Update};
use gw_names::Key;
use gw_state::State;
use gw_values::{Context, key_of};

/// RELEASE: the owner gives a facility back, to the first that waits for it. X2 where the transaction does not own it.
#[inline(always)]
pub fn decide_release(
    context: Context,
    notes: &mut Notes,
    x: &Transaction,
    id: StatementId,
    entity: Option<&Expr>,
) -> Result<Move, Halt>
    ensures { DecidesIn context.entry (λ s q. release_prog s q x.now id (option_copied entity.entry))
        result notes.old notes.new }
{
    let key = key_of(context, notes, entity)?;
    let owns = is_owner(context.state.entities().facility(&key).owner(), x.number);
    let next = first_waiting(context.state, &key);
    release_to(id, key, owns, next)
}

// The number of the first that waits for a facility.
#[inline(always)]
fn first_waiting(state: &State, key: &Key) -> Option<u64>
    ensures { result ≡ first_number (delay_at state.now.delays key.now) }
{
    match state.delays().first(key) {
        Some(x) => Some(x.number),
        None => None,
    }
}

#[inline(always)]
fn release_to(id: StatementId, key: Key, owns: bool, next: Option<u64>) -> Result<Move, Halt>
    ensures { Comes (release_to id key owns next) result }
{
    if !owns {
        return Err(Halt::stop(Stop::NotOwner));
    }
    let update = FacilityUpdate::Release { next };
    Ok(enter_doing(id, key, Update::Facility(update)))
}

// Whether the transaction with a number owns it.
#[inline(always)]
fn is_owner(owner: Option<u64>, number: u64) -> bool
    ensures { result ≡ is_owner owner number }
{
    match owner {
        Some(owner) => owner == number,
        None => false,
    }
}
