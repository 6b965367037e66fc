// SPLIT: copies of a transaction.
ghost use Rattle.std.specs.Prelude.{◌≡◌, ◌+◌, Ok, nat_lt, option_copied};
ghost use Rattle.gw_meaning.specs.Machine.{live};
ghost use Rattle.gw_meaning.specs.Step.{split_prog, split_value, split_count, split_to, split_into};
ghost use Rattle.gw_asking.specs.Deciding.{Decides, Comes};
ghost use Rattle.gw_values.specs.Contexts.{DecidesIn};

use crate::entering::enter_bringing;
use gw_asking::{Notes, Run, ask_label};
use gw_expr::{Expr, Halt, Stop};
use gw_meaning::{Change, Destination, Move, StatementId};
use gw_nums::Val;
use gw_state::State;
use gw_values::{Context, LIVE_LIMIT, value_there};

/// SPLIT: as many copies are made as A says. They go to the block with the label, or on from their own. X11 where A is
/// below 0, X9 where more than 100,000 transactions would live.
#[inline(always)]
pub fn decide_split(
    context: Context,
    notes: &mut Notes,
    id: StatementId,
    copies: Option<&Expr>,
    label: Option<&Expr>,
) -> Result<Move, Halt>
    ensures { DecidesIn context.entry (λ s q. split_prog s q id (option_copied copies.entry)
        (option_copied label.entry)) result notes.old notes.new }
{
    let copies = value_there(context, notes, copies)?;
    split_value(context, notes, id, label, copies)
}

#[inline(always)]
fn split_value(
    context: Context,
    notes: &mut Notes,
    id: StatementId,
    label: Option<&Expr>,
    copies: Val,
) -> Result<Move, Halt>
    ensures { DecidesIn context.entry (λ s q. split_value s id (option_copied label.entry) copies)
        result notes.old notes.new }
{
    if copies.is_negative() {
        return Err(Halt::stop(Stop::BadCount));
    }
    let count = copies.magnitude();
    if is_too_full(context.state, count) {
        return Err(Halt::stop(Stop::TooManyTransactions));
    }
    split_count(context.run, notes, id, label, count)
}

// Whether so many more may not live.
#[inline(always)]
fn is_too_full(state: &State, count: u64) -> bool
    ensures { result ≡ nat_lt 100000 (live state.now + count) }
{
    state.living().saturating_add(count as usize) > LIVE_LIMIT
}

// A label is looked up only where a copy goes there.
#[inline(always)]
fn split_count(
    run: Run,
    notes: &mut Notes,
    id: StatementId,
    label: Option<&Expr>,
    count: u64,
) -> Result<Move, Halt>
    ensures { Decides run.entry.version.now run.entry.seed
        (split_count id (option_copied label.entry) count) result notes.old notes.new }
{
    if count == 0 {
        return Ok(split_into(id, 0, Destination::none()));
    }
    let Some(expr) = label else {
        return Ok(split_into(id, count, Destination::none()));
    };
    match expr {
        Expr::Label(name) => {
            let to = ask_label(run.version, notes, name)?;
            split_to(id, count, to)
        }
        _ => Ok(split_into(id, count, Destination::none())),
    }
}

#[inline(always)]
fn split_to(id: StatementId, count: u64, to: Option<StatementId>) -> Result<Move, Halt>
    ensures { Comes (split_to id count to) result }
{
    match to {
        Some(to) => Ok(split_into(id, count, Destination::to(to))),
        None => Err(Halt::stop(Stop::NoNextBlock)),
    }
}

#[inline(always)]
fn split_into(id: StatementId, count: u64, to: Destination) -> Move
    ensures { Comes (split_into id count to) (Ok result) }
{
    enter_bringing(id, Change::Split { count, to })
}
