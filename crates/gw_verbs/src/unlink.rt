// UNLINK: transactions leave a user chain.
ghost use Rattle.std.specs.Prelude.{Ok, option_copied};
ghost use Rattle.gw_meaning.specs.Step.{unlink_prog, unlink_count, unlink_to, unlink_some};
ghost use Rattle.gw_asking.specs.Deciding.{Decides, Comes};
ghost use Rattle.gw_values.specs.Contexts.{DecidesIn};

use crate::entering::enter_bringing;
use crate::link::leaving;
use gw_asking::{Notes, Run, ask_label};
use gw_expr::{Expr, Halt, Stop};
use gw_meaning::{Change, Destination, Move, StatementId};
use gw_names::Key;
use gw_values::{Context, key_of};

/// UNLINK: so many from the front of a user chain, or all, go to the block with the label, which is asked for only
/// where somebody goes. X11 where the count is below 1.
#[inline(always)]
pub fn decide_unlink(
    context: Context,
    notes: &mut Notes,
    id: StatementId,
    entity: Option<&Expr>,
    label: Option<&Expr>,
    count: Option<&Expr>,
) -> Result<Move, Halt>
    ensures { DecidesIn context.entry (λ s q. unlink_prog s q id (option_copied entity.entry)
        (option_copied label.entry) (option_copied count.entry)) result notes.old notes.new }
{
    let key = key_of(context, notes, entity)?;
    let there = context.state.linked().len(&key) as u64;
    let count = leaving(context, notes, count, there)?;
    unlink_count(context.run, notes, id, key, label, count)
}

// A label is looked up only where somebody goes there.
#[inline(always)]
fn unlink_count(
    run: Run,
    notes: &mut Notes,
    id: StatementId,
    key: Key,
    label: Option<&Expr>,
    count: u64,
) -> Result<Move, Halt>
    ensures { Decides run.entry.version.now run.entry.seed
        (unlink_count id key (option_copied label.entry) count) result notes.old notes.new }
{
    if count == 0 {
        return Ok(unlink_some(id, key, 0, Destination::none()));
    }
    let Some(expr) = label else {
        return Err(Halt::stop(Stop::NoNextBlock));
    };
    match expr {
        Expr::Label(name) => {
            let to = ask_label(run.version, notes, name)?;
            unlink_to(id, key, count, to)
        }
        _ => Err(Halt::stop(Stop::NoNextBlock)),
    }
}

#[inline(always)]
fn unlink_to(id: StatementId, key: Key, count: u64, to: Option<StatementId>) -> Result<Move, Halt>
    ensures { Comes (unlink_to id key count to) result }
{
    match to {
        Some(to) => Ok(unlink_some(id, key, count, Destination::to(to))),
        None => Err(Halt::stop(Stop::NoNextBlock)),
    }
}

#[inline(always)]
fn unlink_some(id: StatementId, key: Key, count: u64, to: Destination) -> Move
    ensures { Comes (unlink_some id key count to) (Ok result) }
{
    enter_bringing(id, Change::Unlink { key, count, to })
}
