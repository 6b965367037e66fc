// The next transaction of a GENERATE, and the first ones of all.
ghost use Rattle.std.specs.Prelude.{◌≡◌, [], OnOk, option_copied, true, nat_le};
ghost use Rattle.gw_meaning.specs.Machine.{live, count_at};
ghost use Rattle.gw_meaning.specs.Step.{arrival_prog, arrival_in_time, arrival_at, first_of, first_arrival, prime_prog, arrivals_prog, with_arrival};
ghost use Rattle.gw_asking.specs.Deciding.{Comes};
ghost use Rattle.gw_values.specs.Contexts.{DecidesIn};

use crate::context::Context;
use crate::operand::{value, value_or_zero};
use crate::times::time;
use gw_asking::{Notes, ask_block};
use gw_expr::{Expr, Halt, Row, Stop};
use gw_meaning::operands::{A, B, C, D, E};
use gw_meaning::{Arrival, Block, StatementId};
use gw_nums::Val;
use gw_state::State;
use std::alloc::AllocError;

/// How many transactions may live.
pub const LIVE_LIMIT: usize = 100_000;

// Whether no more transactions may live.
#[inline(always)]
fn is_full(state: &State) -> bool
    ensures { result ≡ nat_le 100000 (live state.now) }
{
    state.living() >= LIVE_LIMIT
}

/// The next transaction of the GENERATE at `id`: its limit is evaluated, then its time, then its priority. None comes
/// where the limit is reached. X11 where the limit is below 0, X1 where the time is, X9 where 100,000 transactions
/// live.
#[inline(always)]
pub fn arrival(
    context: Context,
    notes: &mut Notes,
    id: StatementId,
    mean: Option<&Expr>,
    range: Option<&Expr>,
    limit: Option<&Expr>,
    priority: Option<&Expr>,
) -> Result<Option<Arrival>, Halt>
    ensures { DecidesIn context.entry (λ s q. arrival_prog s q id (count_at s.counts id).made (option_copied mean.entry)
        (option_copied range.entry) (option_copied limit.entry) (option_copied priority.entry))
        result notes.old notes.new }
{
    if let Some(limit) = limit {
        let limit = value(context, notes, limit)?;
        if limit.is_negative() {
            return Err(Halt::stop(Stop::BadCount));
        }
        if limit.magnitude() <= context.state.count(id).made {
            return Ok(None);
        }
    }
    arrival_in_time(context, notes, id, mean, range, priority)
}

#[inline(always)]
fn arrival_in_time(
    context: Context,
    notes: &mut Notes,
    id: StatementId,
    mean: Option<&Expr>,
    range: Option<&Expr>,
    priority: Option<&Expr>,
) -> Result<Option<Arrival>, Halt>
    ensures { DecidesIn context.entry (λ s q. arrival_in_time s q id (option_copied mean.entry)
        (option_copied range.entry) (option_copied priority.entry)) result notes.old notes.new }
{
    let time = time(context, notes, mean, range)?;
    let priority = value_or_zero(context, notes, priority)?;
    arrival_at(context.state, id, time, priority)
}

#[inline(always)]
fn arrival_at(
    state: &State,
    id: StatementId,
    time: Val,
    priority: Val,
) -> Result<Option<Arrival>, Halt>
    ensures { Comes (arrival_at state.now id time priority) result }
{
    if time.is_negative() {
        return Err(Halt::stop(Stop::NegativeTime));
    }
    if is_full(state) {
        return Err(Halt::stop(Stop::TooManyTransactions));
    }
    Ok(Some(Arrival {
        id,
        time: state.clock_now().after(time.magnitude()),
        priority,
    }))
}

/// The first transactions of the GENERATEs at these ids, in order, each after its offset or its time in ticks. It
/// stops as [`arrival`] does; a block that is no GENERATE has none.
pub fn arrivals(
    context: Context,
    notes: &mut Notes,
    ids: &[StatementId],
) -> Result<Row<Arrival>, Halt>
    ensures { DecidesIn context.entry (λ s q. arrivals_prog s q ids.now []) result notes.old notes.new }
{
    let mut arrivals = Vec::new(context.run.alloc);
    for id in ids {
        let arrival = prime(context, notes, *id)?;
        put_if(&mut arrivals, arrival)?;
    }
    Ok(Row::from_vec(arrivals))
}

fn prime(context: Context, notes: &mut Notes, id: StatementId) -> Result<Option<Arrival>, Halt>
    ensures { DecidesIn context.entry (λ s q. prime_prog s q id) result notes.old notes.new }
{
    let block = ask_block(context.run.version, notes, id)?;
    first_arrival(context, notes, id, block)
}

fn first_arrival(
    context: Context,
    notes: &mut Notes,
    id: StatementId,
    block: Option<&Block>,
) -> Result<Option<Arrival>, Halt>
    ensures { DecidesIn context.entry (λ s q. first_arrival s q id (option_copied block.entry))
        result notes.old notes.new }
{
    match block {
        Some(block) if block.is_generate() => first_of(context, notes, id, block),
        _ => Ok(None),
    }
}

// The first transaction of a GENERATE comes after the offset, where there is one.
fn first_of(
    context: Context,
    notes: &mut Notes,
    id: StatementId,
    block: &Block,
) -> Result<Option<Arrival>, Halt>
    ensures { DecidesIn context.entry (λ s q. first_of s q id block.now true) result notes.old notes.new }
{
    let (mean, range) = match block.operand(C) {
        Some(offset) => (Some(offset), None),
        None => (block.operand(A), block.operand(B)),
    };
    arrival(
        context,
        notes,
        id,
        mean,
        range,
        block.operand(D),
        block.operand(E),
    )
}

fn put_if(arrivals: &mut Vec<Arrival>, arrival: Option<Arrival>) -> Result<(), AllocError>
    ensures { OnOk result (arrivals.new.items ≡ with_arrival arrival arrivals.old.items) }
{
    if let Some(arrival) = arrival {
        arrivals.push(arrival)?;
    }
    Ok(())
}
