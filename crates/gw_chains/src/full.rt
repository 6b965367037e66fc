ghost use Rattle.std.specs.Prelude.{◌≡◌, ◌+◌, ◌++◌, ◌≤◌, length, filter, not, IfOk, OnOk};
ghost use Rattle.gw_meaning.specs.Changes.{all_lined_up, due, is_due};
ghost use Rattle.gw_meaning.specs.Step.{least_time};
ghost use Rattle.gw_chains.specs.Blocks.{time_of, IsNoneBefore};

use crate::block::Block;
use crate::chain::PriorityChain;
use gw_meaning::Event;
use gw_nums::Time;
use std::alloc::AllocError;
use std::marker::Model;
use std::sync::Arc;

/// A block of the future chain onto which nothing comes any more. Copies of the state share it, and it never changes:
/// since those of the least time leave first, a time tells who is still there.
#[derive(Drop)]
pub struct FullBlock {
    block: Arc<Block>,
    // The least time of those who are there, and [`BEYOND`] where nobody is. Those before it have left.
    least: u64,
}

impl Model for FullBlock {
    ghost use Rattle.std.specs.Prelude.{◌≡◌};
    ghost use Rattle.gw_meaning.specs.Step.{least_time};
    ghost use Rattle.gw_chains.specs.Blocks.{Full, since, time_of};

    ghost Value = { Full };

    ghost view = { λ b. record { items = since b.least b.block.value.items } };

    ghost invariant = { λ b. time_of b.least ≡ least_time (since b.least b.block.value.items) };
}

impl FullBlock {
    // All are there.
    pub(crate) fn new(block: Arc<Block>) -> FullBlock
        ensures { result.items ≡ block.value.items }
    {
        let least = block.least();
        FullBlock { block, least }
    }

    // Appends what is on it.
    pub(crate) fn append_to(&self, events: &mut Vec<Event>) -> Result<(), AllocError>
        ensures { OnOk result (events.new.items ≡ events.old.items ++ self.now.items) }
    {
        for index in 0..self.block.len() {
            let event = self.block.event(index);
            if event.time.ticks() >= self.least {
                events.push(event)?;
            }
        }
        Ok(())
    }

    // Moves the transactions of a time to the current chain, in the order in which they came. Returns the least time of
    // those who stay.
    #[inline(always)]
    pub(crate) fn take_due(&mut self, current: &mut PriorityChain, time: Time) -> u64
        requires room { length self.old.items ≤ current.old.room }
        requires before { IsNoneBefore time self.old.items }
        ensures current { current.new.items ≡ all_lined_up (due time self.old.items) current.old.items }
        ensures future { self.new.items ≡ filter (λ e. not (is_due time e)) self.old.items }
        ensures room { current.old.room + length self.new.items ≤ current.new.room + length self.old.items }
        ensures least { time_of result ≡ least_time self.new.items }
    {
        if self.least == time.ticks() {
            self.least = self.block.line_up_due(current, time);
        }
        self.least
    }

    // An equal block, which shares what is on it.
    pub(crate) fn copy(&self) -> Result<FullBlock, AllocError>
        ensures { IfOk result (λ b. b.items ≡ self.now.items) }
    {
        Ok(FullBlock {
            block: Arc::try_clone(&self.block)?,
            least: self.least,
        })
    }
}
