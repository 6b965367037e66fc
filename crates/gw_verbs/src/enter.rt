// ENTER: units of a storage come into use.
ghost use Rattle.std.specs.Prelude.{Some, option_copied};
ghost use Rattle.gw_expr.specs.declared.expr.Expr.TheVariants.{Defined};
ghost use Rattle.gw_meaning.specs.Step.{enter_or_wait, enter_storage, enter_prog};
ghost use Rattle.gw_asking.specs.Deciding.{Decides, Comes};
ghost use Rattle.gw_values.specs.Contexts.{DecidesIn};

use crate::entering::enter_doing;
use crate::grants::beside;
use crate::queue::is_too_many;
use gw_asking::{Notes, Run, ask_fits};
use gw_entities::Storage;
use gw_expr::{Expr, Halt, Stop};
use gw_meaning::{Move, StatementId, StorageUpdate, Update};
use gw_names::{Key, StorageName};
use gw_values::{Context, units_of};

/// ENTER: units of a storage come into use, whoever waits, or are waited for where they do not fit. X12 where the
/// storage has fewer, or its entries would be above 1,000,000,000.
#[inline(always)]
pub fn decide_enter(
    context: Context,
    notes: &mut Notes,
    id: StatementId,
    storage: Option<&Expr>,
    units: Option<&Expr>,
) -> Result<Move, Halt>
    ensures { DecidesIn context.entry (λ s q. enter_prog s q id (option_copied storage.entry)
        (option_copied units.entry)) result notes.old notes.new }
{
    let Some(expr) = storage else {
        return Err(Halt::stop(Stop::Range));
    };
    match expr {
        Expr::Defined(name) => enter_defined(context, notes, id, name, units),
        _ => Err(Halt::stop(Stop::Range)),
    }
}

// An ENTER of the storage with this name: it is asked whether the empty storage holds the units, and then whether
// they fit beside those in use.
#[inline(always)]
fn enter_defined(
    context: Context,
    notes: &mut Notes,
    id: StatementId,
    name: &StorageName,
    units: Option<&Expr>,
) -> Result<Move, Halt>
    ensures { DecidesIn context.entry (λ s q. enter_prog s q id (Some (Defined name.now)) (option_copied units.entry))
        result notes.old notes.new }
{
    let units = units_of(context, notes, units)?;
    let large = ask_fits(context.run.version, notes, name.name(), u64::from(units))?;
    let storage = context.state.entities().storage(name.key());
    enter_storage(context.run, notes, id, name, storage, units, large)
}

// The units are more than the storage has, or it is asked whether they fit beside those in use.
#[inline(always)]
fn enter_storage(
    run: Run,
    notes: &mut Notes,
    id: StatementId,
    name: &StorageName,
    storage: Storage,
    units: u32,
    large: bool,
) -> Result<Move, Halt>
    ensures { Decides run.entry.version.now run.entry.seed
        (enter_storage id name.now storage units large) result notes.old notes.new }
{
    if !large {
        return Err(Halt::stop(Stop::TooManyUnits));
    }
    let wanted = beside(u64::from(units), storage.level().content());
    let fits = ask_fits(run.version, notes, name.name(), wanted)?;
    enter_or_wait(id, name.key().clone()?, storage, units, fits)
}

// Units that fit come into use, whoever waits, unless a count would be too great; else the transaction waits.
#[inline(always)]
fn enter_or_wait(
    id: StatementId,
    key: Key,
    storage: Storage,
    units: u32,
    fits: bool,
) -> Result<Move, Halt>
    ensures { Comes (enter_or_wait id key storage units fits) result }
{
    if !fits {
        return Ok(Move::Refuse { id, key, units });
    }
    let units = u64::from(units);
    if is_too_many(storage.entries().saturating_add(units)) {
        return Err(Halt::stop(Stop::TooManyUnits));
    }
    Ok(enter_doing(id, key, Update::Storage(StorageUpdate::Enter { units })))
}
