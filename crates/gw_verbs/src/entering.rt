// The moves by which a block is entered.
ghost use Rattle.std.specs.Prelude.{◌≡◌};
ghost use Rattle.gw_meaning.specs.declared.moves.Change.TheVariants as changes;
ghost use Rattle.gw_meaning.specs.declared.moves.Fate.TheVariants as fates;
ghost use Rattle.gw_meaning.specs.declared.moves.Move.TheVariants as moves;

use gw_meaning::{Change, EntityChange, Fate, Move, StatementId, TransactionChange, Update};
use gw_names::Key;

// It is entered, and no more.
#[inline(always)]
pub(crate) fn pass(id: StatementId) -> Move
    ensures { result ≡ moves.Enter id changes.Nothing fates.Active }
{
    enter_for(id, Fate::Active)
}

// It is entered, and this becomes of the transaction.
#[inline(always)]
pub(crate) fn enter_for(id: StatementId, fate: Fate) -> Move
    ensures { result ≡ moves.Enter id changes.Nothing fate }
{
    Move::Enter {
        id,
        change: Change::Nothing,
        fate,
    }
}

// It changes its transaction.
#[inline(always)]
pub(crate) fn enter_with(id: StatementId, change: TransactionChange) -> Move
    ensures { result ≡ moves.Enter id (changes.Transaction change) fates.Active }
{
    Move::Enter {
        id,
        change: Change::Transaction(change),
        fate: Fate::Active,
    }
}

// It changes the entity with a key.
#[inline(always)]
pub(crate) fn enter_doing(id: StatementId, key: Key, update: Update) -> Move
    ensures { result ≡ moves.Enter id (changes.Entity (key, update)) fates.Active }
{
    Move::Enter {
        id,
        change: Change::Entity(EntityChange { key, update }),
        fate: Fate::Active,
    }
}

// It brings others.
#[inline(always)]
pub(crate) fn enter_bringing(id: StatementId, change: Change) -> Move
    ensures { result ≡ moves.Enter id change fates.Active }
{
    Move::Enter {
        id,
        change,
        fate: Fate::Active,
    }
}
