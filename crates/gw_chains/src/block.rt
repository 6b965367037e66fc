ghost use Rattle.std.specs.Prelude.{◌≡◌, ◌+◌, ◌++◌, ◌∷◌, ◌≤◌, ◌<◌, ◌^◌, ◌-◌, [], Some, length, filter, not, unwrap_or};
ghost use Rattle.std.specs.Prelude.{slice_get, option_to_list, IfOk, OnOk, IfNone};
ghost use Rattle.gw_meaning.specs.Changes.{all_lined_up, due, is_due};
ghost use Rattle.gw_meaning.specs.Step.{least_time};
ghost use Rattle.gw_lanes.specs.Least.{least};
ghost use Rattle.gw_chains.specs.Blocks.{time_of, after, IsNoneBefore};

use crate::chain::PriorityChain;
use gw_lanes::{first_at, least};
use gw_meaning::{Event, Transaction};
use gw_nums::Time;
use slab::Slab;
use std::alloc::{AllocError, Global};
use std::marker::Model;

/// A number that is no time, and later than any.
pub(crate) const BEYOND: u64 = u64::MAX;

/// A block of the future chain. The times lie side by side, in the order of coming, so that those who are due are found
/// by lanes. A transaction stays where it lies in the slab until it leaves: where one leaves, only times and keys close
/// up.
#[derive(Drop)]
pub struct Block {
    times: Vec<u64>,
    keys: Vec<usize>,
    transactions: Slab<Transaction>,
    // The least of the times, and [`BEYOND`] where there is none.
    least: u64,
}

impl Model for Block {
    ghost use Rattle.std.specs.Prelude.{◌-◌, min, vec_len, vec_capacity};
    ghost use Rattle.slab.specs.Slab.{slab_len};
    ghost use Rattle.gw_meaning.specs.declared.transaction.Event.{Event};
    ghost use Rattle.gw_chains.specs.Chains.{Chain};
    ghost use Rattle.gw_chains.specs.Blocks.{events_of, IsBlock};

    ghost Value = { Chain Event };

    ghost view = { λ b. record {
      items = events_of b.transactions b.times.items b.keys.items;
      room = min (vec_capacity b.times - vec_len b.times)
          (min (vec_capacity b.keys - vec_len b.keys) (b.transactions.capacity - slab_len b.transactions));
    } };

    ghost invariant = { λ b. IsBlock b.transactions b.times.items b.keys.items b.least };
}

impl Block {
    // An empty block.
    pub(crate) fn new(alloc: Global) -> Block
        ensures { result.items ≡ [] }
    {
        Block {
            times: Vec::new(alloc),
            keys: Vec::new(alloc),
            transactions: Slab::new(alloc),
            least: BEYOND,
        }
    }

    // Where its memory comes from.
    pub(crate) fn allocator(&self) -> Global {
        *self.times.allocator()
    }

    // How many transactions are on it.
    pub(crate) fn len(&self) -> usize
        ensures len { result ≡ length self.now.items }
        ensures bound { result < 2 ^ 63 }
    {
        self.times.len()
    }

    // The least time on it, and [`BEYOND`] where none is.
    pub(crate) fn least(&self) -> u64
        ensures { time_of result ≡ least_time self.now.items }
    {
        self.least
    }

    // The transaction at an index, with its time.
    pub(crate) fn event(&self, index: usize) -> Event
        requires { index < length self.now.items }
        ensures { slice_get self.now.items index ≡ Some result }
    {
        let Some(time) = Time::new(self.times[index]) else {
            unreachable!()
        };
        Event {
            time,
            transaction: self.transactions[self.keys[index]],
        }
    }

    // Appends what is on it.
    pub(crate) fn append_to(&self, events: &mut Vec<Event>) -> Result<(), AllocError>
        ensures { OnOk result (events.new.items ≡ events.old.items ++ self.now.items) }
    {
        for index in 0..self.len() {
            events.push(self.event(index))?;
        }
        Ok(())
    }

    // Makes room for so many more.
    pub(crate) fn reserve(&mut self, count: usize) -> Result<(), AllocError>
        ensures ok { OnOk result (count ≤ self.new.room) }
        ensures items { self.new.items ≡ self.old.items }
    {
        self.times.reserve(count)?;
        self.keys.reserve(count)?;
        self.transactions.reserve(count)
    }

    // Puts a transaction on it.
    #[inline(always)]
    pub(crate) fn put(&mut self, event: Event)
        requires { 0 < self.old.room }
        ensures items { self.new.items ≡ self.old.items ++ event ∷ [] }
        ensures room { self.old.room ≤ self.new.room + 1 }
    {
        let ticks = event.time.ticks();
        let key = self.transactions.insert_reserved(event.transaction);
        self.times.push_reserved(ticks);
        self.keys.push_reserved(key);
        self.least = ticks.min(self.least);
    }

    // Moves the transactions of a time to the current chain, in the order in which they came.
    pub(crate) fn take_due(&mut self, current: &mut PriorityChain, time: Time)
        requires room { length self.old.items ≤ current.old.room }
        requires before { IsNoneBefore time self.old.items }
        ensures current { current.new.items ≡ all_lined_up (due time self.old.items) current.old.items }
        ensures future { self.new.items ≡ filter (λ e. not (is_due time e)) self.old.items }
        ensures room { current.old.room + length self.new.items ≤ current.new.room + length self.old.items }
    {
        while let Some(x) = self.take_first_due(time) {
            current.line_up_ref(&x);
        }
    }

    // The first transaction of a time leaves, where none of the block is due before that time.
    #[inline(always)]
    fn take_first_due(&mut self, time: Time) -> Option<Transaction>
        requires { IsNoneBefore time self.old.items }
        ensures due { due time self.old.items ≡ option_to_list result ++ due time self.new.items }
        ensures stay { filter (λ e. not (is_due time e)) self.new.items ≡
            filter (λ e. not (is_due time e)) self.old.items }
        ensures len { length self.new.items + length (option_to_list result) ≡ length self.old.items }
        ensures none { IfNone result (due time self.new.items ≡ []) }
    {
        let now = time.ticks();
        if self.least != now {
            return None;
        }
        let Some(index) = first_at(&self.times, now) else {
            return None;
        };
        self.times.remove(index);
        let key = self.keys.remove(index);
        self.least = least_of(&self.times);
        Some(self.transactions.remove(key))
    }

    // Appends the transactions of a time to the current chain, in the order in which they came. They stay on the block.
    // Returns the least time after that one, and [`BEYOND`] where there is none.
    pub(crate) fn line_up_due(&self, current: &mut PriorityChain, time: Time) -> u64
        requires { length (due time self.now.items) ≤ current.old.room }
        ensures current { current.new.items ≡ all_lined_up (due time self.now.items) current.old.items }
        ensures room { current.old.room ≤ current.new.room + length (due time self.now.items) }
        ensures least { time_of result ≡ least_time (after time self.now.items) }
        ensures later { time < result }
    {
        let now = time.ticks();
        let mut least = BEYOND;
        for index in 0..self.len() {
            let ticks = self.times[index];
            if ticks == now {
                current.line_up_ref(&self.transactions[self.keys[index]]);
            } else if ticks > now {
                least = least.min(ticks);
            }
        }
        least
    }

    // An equal block.
    pub(crate) fn copy(&self) -> Result<Block, AllocError>
        ensures { IfOk result (λ b. b.items ≡ self.now.items) }
    {
        let times = self.times.clone()?;
        let keys = self.keys.clone()?;
        let transactions = self.transactions.clone()?;
        Ok(Block {
            times,
            keys,
            transactions,
            least: self.least,
        })
    }
}

// The least of times, and [`BEYOND`] where there is none.
fn least_of(times: &[u64]) -> u64
    ensures { result ≡ unwrap_or (least times.now) (2 ^ 64 - 1) }
{
    match least(times) {
        Some(least) => least,
        None => BEYOND,
    }
}
