ghost use Rattle.std.specs.Prelude.{◌≡◌, ◌+◌, ◌++◌, ◌∷◌, ◌≤◌, ◌<◌, ◌^◌, [], length, filter, not, IfOk, OnOk};
ghost use Rattle.std.specs.Prelude.{Some};
ghost use Rattle.gw_meaning.specs.Changes.{all_lined_up, due, is_due};
ghost use Rattle.gw_meaning.specs.Step.{least_time};
ghost use Rattle.gw_chains.specs.Blocks.{all_items, time_of, IsNoneBefore};

use crate::block::{BEYOND, Block};
use crate::chain::PriorityChain;
use crate::full::FullBlock;
use gw_meaning::Event;
use gw_nums::Time;
use std::alloc::{AllocError, Global};
use std::marker::Model;
use std::mem;
use std::sync::Arc;

/// How many transactions make a block full. A clock step goes over the least times of all blocks, and over the times of
/// those with one that is due, so a block of many and many blocks both cost.
const FULL: usize = 64;

/// How many make it full where more than [`MANY`] are on the chain.
const FULL_OF_MANY: usize = 256;

const MANY: usize = 4_096;

/// How many transactions the chain takes, 2^63 - 1.
const LIMIT: usize = 9_223_372_036_854_775_807;

/// The future chain of a run, in the order of coming onto it: the full blocks, which take no more, and the last.
#[derive(Drop)]
pub struct FutureChain {
    full: Vec<FullBlock>,
    // The least time on the full blocks, and [`BEYOND`] where nobody is on one.
    least: u64,
    last: Block,
    len: usize,
}

impl Model for FutureChain {
    ghost use Rattle.std.specs.Prelude.{◌≡◌, ◌-◌, ◌<◌, ◌^◌, ◌++◌, length, min};
    ghost use Rattle.gw_meaning.specs.declared.transaction.Event.{Event};
    ghost use Rattle.gw_chains.specs.Chains.{Chain};
    ghost use Rattle.gw_meaning.specs.Step.{least_time};
    ghost use Rattle.gw_chains.specs.Blocks.{all_items, time_of};

    ghost Value = { Chain Event };

    ghost view = { λ c. record {
      items = all_items c.full.items ++ c.last.items;
      room = min c.last.room (2 ^ 63 - 1 - c.len);
    } };

    ghost invariant = { λ c. (c.len ≡ length (all_items c.full.items ++ c.last.items)) × (c.len < 2 ^ 63)
        × (time_of c.least ≡ least_time (all_items c.full.items)) };
}

impl FutureChain {
    /// An empty chain.
    pub fn new(alloc: Global) -> FutureChain
        ensures { result.items ≡ [] }
    {
        FutureChain {
            full: Vec::new(alloc),
            least: BEYOND,
            last: Block::new(alloc),
            len: 0,
        }
    }

    /// How many transactions are on it.
    pub fn len(&self) -> usize
        ensures len { result ≡ length self.now.items }
        ensures bound { result < 2 ^ 63 }
    {
        self.len
    }

    /// The transactions in the order of coming, each with its time.
    pub fn events(&self) -> Result<Vec<Event>, AllocError>
        ensures { IfOk result (λ events. events.items ≡ self.now.items) }
    {
        let mut events = Vec::with_capacity(self.last.allocator(), self.len)?;
        for block in &self.full {
            block.append_to(&mut events)?;
        }
        self.last.append_to(&mut events)?;
        Ok(events)
    }

    /// Makes room for so many more.
    #[inline(always)]
    pub fn reserve(&mut self, count: usize) -> Result<(), AllocError>
        ensures ok { OnOk result (count ≤ self.new.room) }
        ensures items { self.new.items ≡ self.old.items }
    {
        if count > LIMIT - self.len {
            return Err(AllocError);
        }
        let full = if self.len > MANY { FULL_OF_MANY } else { FULL };
        if self.last.len() >= full {
            self.begin_block()?;
        }
        self.last.reserve(count)
    }

    // The last block is full: an empty one stands after it.
    #[cold]
    #[inline(never)]
    fn begin_block(&mut self) -> Result<(), AllocError>
        ensures { self.new.items ≡ self.old.items }
    {
        self.full.reserve(1)?;
        let alloc = self.last.allocator();
        let least = self.last.least();
        let last = mem::replace(&mut self.last, Block::new(alloc));
        match Arc::new(alloc, last) {
            Ok(full) => {
                self.least = self.least.min(least);
                self.full.push_reserved(FullBlock::new(full));
                Ok(())
            }
            Err(refused) => {
                self.last = refused.value;
                Err(AllocError)
            }
        }
    }

    /// Puts a transaction on it.
    #[inline(always)]
    pub fn put(&mut self, event: Event)
        requires { 0 < self.old.room }
        ensures items { self.new.items ≡ self.old.items ++ event ∷ [] }
        ensures room { self.old.room ≤ self.new.room + 1 }
    {
        self.last.put(event);
        self.len += 1;
    }

    /// The least time on it.
    pub fn least_time(&self) -> Option<Time>
        ensures { result ≡ least_time self.now.items }
    {
        Time::new(self.least.min(self.last.least()))
    }

    /// Moves the transactions of the least time to the current chain, in the order in which they came.
    pub fn take_due(&mut self, current: &mut PriorityChain, time: Time)
        requires room { length self.old.items ≤ current.old.room }
        requires least { least_time self.old.items ≡ Some time }
        ensures current { current.new.items ≡ all_lined_up (due time self.old.items) current.old.items }
        ensures future { self.new.items ≡ filter (λ e. not (is_due time e)) self.old.items }
    {
        let before = current.len();
        self.least = take_from_full(&mut self.full, current, time);
        self.last.take_due(current, time);
        self.len -= current.len() - before;
    }

    /// An equal chain, which shares the full blocks.
    pub fn copy(&self) -> Result<FutureChain, AllocError>
        ensures { IfOk result (λ c. c.items ≡ self.now.items) }
    {
        let full = copy(&self.full)?;
        let last = self.last.copy()?;
        Ok(FutureChain {
            full,
            least: self.least,
            last,
            len: self.len,
        })
    }
}

// Moves the transactions of the least time to the current chain, from the first block on. A block that holds nobody any
// more goes. Returns the least time of those who stay, and [`BEYOND`] where nobody does.
fn take_from_full(blocks: &mut Vec<FullBlock>, current: &mut PriorityChain, time: Time) -> u64
    requires room { length (all_items blocks.old.items) ≤ current.old.room }
    requires before { IsNoneBefore time (all_items blocks.old.items) }
    ensures current { current.new.items ≡ all_lined_up (due time (all_items blocks.old.items)) current.old.items }
    ensures future { all_items blocks.new.items ≡ filter (λ e. not (is_due time e)) (all_items blocks.old.items) }
    ensures room { current.old.room ≤ current.new.room + length (all_items blocks.old.items) }
    ensures least { time_of result ≡ least_time (all_items blocks.new.items) }
{
    let mut least = BEYOND;
    let mut index = 0;
    while index < blocks.len() {
        let stay = blocks[index].take_due(current, time);
        if stay == BEYOND {
            blocks.remove(index);
        } else {
            least = least.min(stay);
            index += 1;
        }
    }
    least
}

// Equal blocks.
fn copy(blocks: &Vec<FullBlock>) -> Result<Vec<FullBlock>, AllocError>
    ensures { IfOk result (λ bs. all_items bs.items ≡ all_items blocks.now.items) }
{
    let len = blocks.len();
    let mut copies = Vec::with_capacity(*blocks.allocator(), len)?;
    for i in 0..len {
        copies.push(blocks[i].copy()?)?;
    }
    Ok(copies)
}
