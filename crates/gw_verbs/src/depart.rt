// DEPART: units leave a queue.
ghost use Rattle.std.specs.Prelude.{option_copied};
ghost use Rattle.gw_meaning.specs.Step.{is_too_many, depart_units, depart_prog};
ghost use Rattle.gw_asking.specs.Deciding.{Comes};
ghost use Rattle.gw_values.specs.Contexts.{DecidesIn};

use crate::entering::enter_doing;
use crate::queue::is_too_many;
use gw_asking::Notes;
use gw_entities::Queue;
use gw_expr::{Expr, Halt, Stop};
use gw_meaning::{Move, QueueUpdate, StatementId, Transaction, Update};
use gw_names::Key;
use gw_values::{Context, key_of, units_of};

/// DEPART: units leave a queue, as zero entries where the transaction came in this tick. X4 where fewer are there, X12
/// where the zero entries would be above 1,000,000,000.
#[inline(always)]
pub fn decide_depart(
    context: Context,
    notes: &mut Notes,
    x: &Transaction,
    id: StatementId,
    entity: Option<&Expr>,
    units: Option<&Expr>,
) -> Result<Move, Halt>
    ensures { DecidesIn context.entry (λ s q. depart_prog s q x.now id (option_copied entity.entry)
        (option_copied units.entry)) result notes.old notes.new }
{
    let key = key_of(context, notes, entity)?;
    let units = units_of(context, notes, units)?;
    let line = context.state.entities().queue(&key);
    let at_once = context.state.entities().has_come(&key, x.number);
    depart_units(id, key, line, at_once, u64::from(units))
}

// So many units leave, unless a count would be too great or fewer are there.
#[inline(always)]
fn depart_units(
    id: StatementId,
    key: Key,
    line: Queue,
    at_once: bool,
    units: u64,
) -> Result<Move, Halt>
    ensures { Comes (depart_units id key line at_once units) result }
{
    if at_once && is_too_many(line.zero_entries().saturating_add(units)) {
        return Err(Halt::stop(Stop::TooManyUnits));
    }
    if line.level().content() < units {
        return Err(Halt::stop(Stop::DepartTooMany));
    }
    let update = QueueUpdate::Depart { units, at_once };
    Ok(enter_doing(id, key, Update::Queue(update)))
}
