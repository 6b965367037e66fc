// QUEUE: units come to a queue.
ghost use Rattle.std.specs.Prelude.{◌≡◌, option_copied};
ghost use Rattle.gw_meaning.specs.Step.{is_too_many, queue_units, queue_prog};
ghost use Rattle.gw_asking.specs.Deciding.{Comes};
ghost use Rattle.gw_values.specs.Contexts.{DecidesIn};

use crate::entering::enter_doing;
use gw_asking::Notes;
use gw_entities::Queue;
use gw_expr::{Expr, Halt, Stop};
use gw_meaning::{Move, QueueUpdate, StatementId, Update};
use gw_names::Key;
use gw_values::{Context, key_of, units_of};

/// QUEUE: units come to a queue. X12 where its content or its entries would be above 1,000,000,000.
#[inline(always)]
pub fn decide_queue(
    context: Context,
    notes: &mut Notes,
    id: StatementId,
    entity: Option<&Expr>,
    units: Option<&Expr>,
) -> Result<Move, Halt>
    ensures { DecidesIn context.entry (λ s q. queue_prog s q id (option_copied entity.entry)
        (option_copied units.entry)) result notes.old notes.new }
{
    let key = key_of(context, notes, entity)?;
    let units = units_of(context, notes, units)?;
    let line = context.state.entities().queue(&key);
    queue_units(id, key, line, u64::from(units))
}

// So many units come, unless a count would be too great.
#[inline(always)]
fn queue_units(id: StatementId, key: Key, line: Queue, units: u64) -> Result<Move, Halt>
    ensures { Comes (queue_units id key line units) result }
{
    if is_too_many(line.entries().saturating_add(units))
        || is_too_many(line.level().content().saturating_add(units))
    {
        return Err(Halt::stop(Stop::TooManyUnits));
    }
    Ok(enter_doing(id, key, Update::Queue(QueueUpdate::Queue { units })))
}

// Whether a content or a count of entries is beyond what it may be.
#[inline(always)]
pub(crate) fn is_too_many(count: u64) -> bool
    ensures { result ≡ is_too_many count }
{
    count > 1_000_000_000
}
