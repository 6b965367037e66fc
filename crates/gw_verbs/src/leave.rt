// LEAVE: units of a storage are given back.
ghost use Rattle.std.specs.Prelude.{Some, option_copied};
ghost use Rattle.gw_expr.specs.declared.expr.Expr.TheVariants.{Defined};
ghost use Rattle.gw_meaning.specs.Step.{leave_for, leave_units, leave_prog};
ghost use Rattle.gw_asking.specs.Deciding.{Comes};
ghost use Rattle.gw_values.specs.Contexts.{DecidesIn};

use crate::entering::enter_doing;
use crate::grants::{all_granted, grants_of};
use crate::queue::is_too_many;
use gw_asking::Notes;
use gw_entities::Storage;
use gw_expr::{Expr, Halt, Row, Stop};
use gw_meaning::{Move, StatementId, StorageUpdate, Update};
use gw_names::{Key, StorageName};
use gw_values::{Context, units_of};

/// LEAVE: units of a storage are given back, and those of its delay chain whose units fit by then are let in, from the
/// front. X3 where fewer are in use, X12 where the entries would be above 1,000,000,000.
#[inline(always)]
pub fn decide_leave(
    context: Context,
    notes: &mut Notes,
    id: StatementId,
    storage: Option<&Expr>,
    units: Option<&Expr>,
) -> Result<Move, Halt>
    ensures { DecidesIn context.entry (λ s q. leave_prog s q id (option_copied storage.entry)
        (option_copied units.entry)) result notes.old notes.new }
{
    let Some(expr) = storage else {
        return Err(Halt::stop(Stop::Range));
    };
    match expr {
        Expr::Defined(name) => leave_defined(context, notes, id, name, units),
        _ => Err(Halt::stop(Stop::Range)),
    }
}

// A LEAVE of the storage with this name.
#[inline(always)]
fn leave_defined(
    context: Context,
    notes: &mut Notes,
    id: StatementId,
    name: &StorageName,
    units: Option<&Expr>,
) -> Result<Move, Halt>
    ensures { DecidesIn context.entry (λ s q. leave_prog s q id (Some (Defined name.now)) (option_copied units.entry))
        result notes.old notes.new }
{
    let units = units_of(context, notes, units)?;
    let storage = context.state.entities().storage(name.key());
    leave_units(context, notes, id, name, storage, u64::from(units))
}

// No more units are given back than are in use.
#[inline(always)]
fn leave_units(
    context: Context,
    notes: &mut Notes,
    id: StatementId,
    name: &StorageName,
    storage: Storage,
    units: u64,
) -> Result<Move, Halt>
    ensures { DecidesIn context.entry (λ s q. leave_units s id name.now storage units) result notes.old notes.new }
{
    let content = storage.level().content();
    if content < units {
        return Err(Halt::stop(Stop::LeaveTooMany));
    }
    let chain = context.state.delays().chain(name.key());
    let grants = grants_of(context.run, notes, name.name(), chain, content - units)?;
    leave_for(id, name.key().clone()?, storage, units, grants)
}

// Units are given back, and those who have a grant are let in, unless a count would be too great.
#[inline(always)]
fn leave_for(
    id: StatementId,
    key: Key,
    storage: Storage,
    units: u64,
    grants: Row<Option<u64>>,
) -> Result<Move, Halt>
    ensures { Comes (leave_for id key storage units grants) result }
{
    if is_too_many(
        storage
            .entries()
            .saturating_add(all_granted(grants.as_slice())),
    ) {
        return Err(Halt::stop(Stop::TooManyUnits));
    }
    Ok(enter_doing(
        id,
        key,
        Update::Storage(StorageUpdate::Leave { units, grants }),
    ))
}
