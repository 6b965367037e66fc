// ADVANCE: a transaction is held for a time.
ghost use Rattle.std.specs.Prelude.{◌≡◌, ◌≤◌, option_copied};
ghost use Rattle.gw_meaning.specs.Step.{delay_of, advance_prog};
ghost use Rattle.gw_values.specs.Contexts.{DecidesIn};

use crate::entering::enter_for;
use gw_asking::Notes;
use gw_expr::{Expr, Halt, Stop};
use gw_meaning::{Fate, Move, StatementId};
use gw_state::State;
use gw_values::{Context, time};

/// ADVANCE: the transaction is held for a time; one of 0 leaves it active. X1 where the time is below 0.
#[inline(always)]
pub fn decide_advance(
    context: Context,
    notes: &mut Notes,
    id: StatementId,
    mean: Option<&Expr>,
    range: Option<&Expr>,
) -> Result<Move, Halt>
    ensures { DecidesIn context.entry (λ s q. advance_prog s q id (option_copied mean.entry)
        (option_copied range.entry)) result notes.old notes.new }
{
    let time = time(context, notes, mean, range)?;
    if time.is_negative() {
        return Err(Halt::stop(Stop::NegativeTime));
    }
    Ok(enter_for(id, delay(context.state, time.magnitude())))
}

// What becomes of a transaction that is held so many ticks.
#[inline(always)]
fn delay(state: &State, ticks: u64) -> Fate
    requires { ticks ≤ 1000000000 }
    ensures { result ≡ delay_of state.now ticks }
{
    if ticks == 0 {
        return Fate::Active;
    }
    Fate::Delayed {
        until: state.clock_now().after(ticks),
    }
}
