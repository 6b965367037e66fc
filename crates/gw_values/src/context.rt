ghost use Rattle.std.specs.Prelude.{◌≡◌};
ghost use Rattle.gw_meaning.specs.Step.{for_none, for_one};

use gw_asking::Run;
use gw_meaning::{Asker, Transaction};
use gw_nums::{Time, Val};
use gw_state::State;

/// What an operand is evaluated in: a state, for whoever asks, of a version and a seed.
#[derive(Clone, Copy)]
pub struct Context<'a> {
    /// The state that replies.
    pub state: &'a State,
    /// Who asks.
    pub asker: &'a Asker,
    /// The version and the seed of the run, and where memory is found.
    pub run: Run<'a>,
}

/// Who asks: a transaction, with its number, its priority and its mark time, and the termination count that is left.
#[inline(always)]
pub fn for_one(state: &State, x: &Transaction) -> Asker
    ensures { result ≡ for_one state.now x.now }
{
    Asker {
        is_transaction: true,
        number: x.number,
        priority: x.priority,
        mark: x.mark,
        remaining: state.remaining(),
    }
}

/// Who asks: no transaction, as for the operands of a GENERATE. P, PR, M1 and XN1 are X5 then.
#[inline(always)]
pub fn for_none(remaining: u64) -> Asker
    ensures { result ≡ for_none remaining }
{
    Asker {
        is_transaction: false,
        number: 0,
        priority: Val::ZERO,
        mark: Time::ZERO,
        remaining,
    }
}
