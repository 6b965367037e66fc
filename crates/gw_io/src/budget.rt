ghost use Rattle.std.specs.Prelude.{◌≡◌, ◌≢◌, ℕ, ◌+◌, ◌≤◌, [], IfOk, OnOk, IfErr, option_to_list};
ghost use Rattle.gw_io.specs.Reading.{Breaks};

use crate::source::Source;
use std::marker::Model;
use thiserror::Error;

/// The most calls of [`Source::read`] in one session.
pub const READ_LIMIT: u32 = 16_777_216;

/// The calls of [`Source::read`] that are left, at most [`READ_LIMIT`].
#[derive(Drop)]
pub struct Budget {
    calls: u32,
}

impl Model for Budget {
    ghost use Rattle.std.specs.Prelude.{ℕ, ◌≤◌};

    ghost Value = { ℕ };

    ghost view = { λ b. b.calls };

    ghost invariant = { λ b. b.calls ≤ 16777216 };
}

/// Why a reading ended early.
#[derive(Clone, Copy, Debug, PartialEq, Eq, Error)]
pub enum ReadFault {
    /// The source failed.
    #[error("the input could not be read")]
    Read,
    /// No call of [`Source::read`] was left.
    #[error("the input is too long")]
    Limit,
    /// Out of memory.
    #[error("out of memory")]
    Memory,
}

impl Budget {
    /// The budget of a whole session.
    pub fn new() -> Budget
        ensures { result ≡ READ_LIMIT }
    {
        Budget { calls: READ_LIMIT }
    }

    /// A budget of fewer calls.
    pub fn of(calls: u32) -> Budget
        requires { calls ≤ READ_LIMIT }
        ensures { result ≡ calls }
    {
        Budget { calls }
    }

    /// The calls that are left.
    pub fn left(&self) -> u32
        ensures value { result ≡ self.now }
        ensures bound { result ≤ READ_LIMIT }
    {
        self.calls
    }

    // Takes a call from those that are left, if there is one.
    fn spend(&mut self) -> Result<(), ReadFault>
        ensures ok { OnOk result (self.old ≡ self.new + 1) }
        ensures err { IfErr result (λ fault. (fault ≡ ReadFault.Limit) × (self.old ≡ 0) × (self.new ≡ 0)) }
    {
        if self.calls == 0 {
            return Err(ReadFault::Limit);
        }
        self.calls -= 1;
        Ok(())
    }
}

/// The next byte of the source, or `None` at the end of its input, for one call of the budget.
///
/// # Errors
///
/// [`ReadFault::Limit`], where no call is left, and [`ReadFault::Read`], where the source failed.
pub fn read_byte<S: Source>(source: &mut S, budget: &mut Budget) -> Result<Option<u8>, ReadFault>
    ensures ok { IfOk result (λ next. S.took source.old (option_to_list next) source.new) }
    ensures end { IfOk result (λ next. next ≡ None → S.ended source.new) }
    ensures spent { OnOk result (budget.old ≡ budget.new + 1) }
    ensures uncounted { OnOk result (S.failures source.new ≡ S.failures source.old) }
    ensures fault { IfErr result (Breaks S.took S.failures (λ bytes. bytes ≡ [])
        source.old source.new budget.old budget.new) }
    ensures memory { IfErr result (λ fault. fault ≢ ReadFault.Memory) }
{
    budget.spend()?;
    source.read().map_err(|_| ReadFault::Read)
}
