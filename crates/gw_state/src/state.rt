ghost use Rattle.std.specs.Prelude.{◌≡◌, ◌-◌, ◌^◌, min, option_copied, IfOk, OnOk, OnErr};
ghost use Rattle.gw_meaning.specs.Changes.{decided};
ghost use Rattle.gw_meaning.specs.Machine.{zero_state, count_at, live};
ghost use Rattle.gw_chains.specs.Chains.{delays_of};
ghost use Rattle.gw_state.specs.Making.{IsMade};
ghost use Rattle.gw_state.specs.Parts.{entities_of};

use crate::entities::Entities;
use crate::parts::Parts;
use gw_chains::{DelayChains, FutureChain, PriorityChain, UserChains};
use gw_entities::Parameters;
use gw_meaning::{Count, Move, StatementId, Transaction};
use gw_nums::{Clock, Time};
use gw_retry::Retry;
use gw_streams::Streams;
use std::alloc::{AllocError, Global};
use std::marker::Model;

/// The state of a run.
#[derive(Drop)]
pub struct State {
    parts: Parts,
}

impl Model for State {
    ghost use Rattle.gw_meaning.specs.Machine.{Machine};
    ghost use Rattle.gw_state.specs.States.{machine_of};

    ghost Value = { Machine };

    ghost view = { λ s. machine_of s.parts };
}

impl State {
    /// The state before the first step.
    pub fn zero(alloc: Global) -> State
        ensures { result ≡ zero_state }
    {
        State {
            parts: Parts::zero(alloc),
        }
    }

    /// Makes a move that was decided, with the streams after its draws, and wakes those who wait for something that it
    /// writes. Where memory is refused, nothing changes. What each decided move is: a block that sends its transaction
    /// away changes nothing else, and the clock moves on to the least time of the future chain.
    #[inline(always)]
    pub fn make(&mut self, alloc: Global, to: Move, streams: &Streams) -> Result<(), AllocError>
        requires { IsMade self.old to }
        ensures ok { OnOk result (self.new ≡ decided self.old to streams.now) }
        ensures err { OnErr result (self.new ≡ self.old) }
    {
        self.parts.make(alloc, to)?;
        self.parts.streams = *streams;
        Ok(())
    }

    /// Makes copies of it cheap: from now on they share what did not change of its chains, its entities and its
    /// parameters. The state is the same after it, also where memory is refused.
    pub fn share(&mut self) -> Result<(), AllocError>
        ensures { self.new ≡ self.old }
    {
        self.parts.share()
    }

    /// An equal state.
    pub fn copy(&self) -> Result<State, AllocError>
        ensures { IfOk result (λ s. s ≡ self.now) }
    {
        let parts = self.parts.copy()?;
        Ok(State { parts })
    }

    /// The absolute clock.
    pub fn clock(&self) -> Time
        ensures { result ≡ self.now.clock }
    {
        self.parts.clocks.clock().time()
    }

    /// The absolute clock, as the levels of entities take it.
    #[inline(always)]
    pub fn clock_now(&self) -> Clock
        ensures { result ≡ self.now.clock }
    {
        self.parts.clocks.clock()
    }

    /// The absolute clock at the last RESET or CLEAR, from which the relative clock counts.
    pub fn since(&self) -> Time
        ensures { result ≡ self.now.since }
    {
        self.parts.clocks.since().time()
    }

    /// What is left of the termination count of the START under way, and 0 where none is.
    #[inline(always)]
    pub fn remaining(&self) -> u64
        ensures { result ≡ self.now.remaining }
    {
        self.parts.progress.remaining()
    }

    /// How many commands are done.
    pub fn commands(&self) -> u64
        ensures { result ≡ self.now.commands }
    {
        self.parts.progress.commands()
    }

    /// How many STARTs are complete.
    pub fn complete(&self) -> u64
        ensures { result ≡ self.now.complete }
    {
        self.parts.progress.complete()
    }

    /// Whether the GENERATEs have their first transactions.
    pub fn is_primed(&self) -> bool
        ensures { result ≡ self.now.primed }
    {
        self.parts.progress.is_primed()
    }

    /// The random streams.
    pub fn streams(&self) -> Streams
        ensures { result ≡ self.now.streams }
    {
        self.parts.streams
    }

    /// The active transaction.
    #[inline(always)]
    pub fn active(&self) -> Option<&Transaction>
        ensures { option_copied result ≡ self.now.active }
    {
        self.parts.active.as_ref()
    }

    /// The current chain, in order.
    pub fn current(&self) -> &PriorityChain
        ensures { result.now.items ≡ self.now.current }
    {
        &self.parts.current
    }

    /// The future chain, in the order of coming onto it.
    pub fn future(&self) -> &FutureChain
        ensures { result.now.items ≡ self.now.future }
    {
        &self.parts.future
    }

    /// The delay chains of the facilities and the storages.
    pub fn delays(&self) -> &DelayChains
        ensures { delays_of result.now ≡ self.now.delays }
    {
        &self.parts.delays
    }

    /// Who waits for a change of something that it read, in order of waiting.
    pub fn retry(&self) -> &Retry
        ensures { result.now.waiters ≡ self.now.retry }
    {
        &self.parts.retry
    }

    /// The entities of each kind, and who came to which queue while the clock stands as it does.
    pub fn entities(&self) -> &Entities
        ensures { entities_of result.now ≡ self.now.entities }
    {
        &self.parts.entities
    }

    /// Who is linked to which user chain.
    pub fn linked(&self) -> &UserChains
        ensures { result.now ≡ self.now.linked }
    {
        &self.parts.linked
    }

    /// The parameters of transactions.
    pub fn parameters(&self) -> &Parameters
        ensures { result.now ≡ self.now.parameters }
    {
        &self.parts.parameters
    }

    /// What is counted at the block with this statement id.
    pub fn count(&self, id: StatementId) -> Count
        ensures { result ≡ count_at self.now.counts id }
    {
        self.parts.counts.at(id)
    }

    /// How many transactions live, as far as a number of 64 bits goes.
    pub fn living(&self) -> usize
        ensures { result ≡ min (live self.now) (2 ^ 64 - 1) }
    {
        let active = if self.parts.active.is_some() { 1 } else { 0 };
        let moving = active + self.parts.current.len() + self.parts.future.len();
        let waiting = self
            .parts
            .delays
            .count()
            .saturating_add(self.parts.retry.len());
        let linked = self.parts.linked.count();
        moving.saturating_add(waiting).saturating_add(linked)
    }
}
