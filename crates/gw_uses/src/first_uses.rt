ghost use Rattle.std.specs.Prelude.{◌≡◌, ◌+◌, ◌<◌, ◌-◌, ◌^◌, Some, None, if◌then◌else◌, IfOk, OnOk, OnErr};
ghost use Rattle.gw_meaning.specs.declared.item.Item.{Item};
ghost use Rattle.gw_meaning.specs.declared.item.Item.TheVariants as items;
ghost use Rattle.gw_meaning.specs.Reads.{or_later, is_use};
ghost use Rattle.gw_uses.specs.Steps.{below, AreBelow};
ghost use Rattle.gw_uses.specs.Uses.{first_in, nothing_used};

use crate::clock_steps::ClockSteps;
use crate::first_steps::FirstSteps;
use crate::item_steps::ItemSteps;
use gw_meaning::{Asked, Item};
use gw_names::Name;
use std::alloc::{AllocError, Global};

/// For each item the first step of a run that used it, if any did.
#[derive(Drop)]
pub struct FirstUses {
    /// By statement id.
    pub blocks: FirstSteps,
    /// By statement id, of the blocks after them.
    pub afters: FirstSteps,
    /// From 1.
    pub commands: FirstSteps,
    pub clock_steps: ClockSteps,
    pub others: ItemSteps,
}

impl FirstUses {
    /// Nothing used yet.
    pub fn new(alloc: Global) -> FirstUses
        ensures { result ≡ nothing_used }
    {
        FirstUses {
            blocks: FirstSteps::new(alloc),
            afters: FirstSteps::new(alloc),
            commands: FirstSteps::new(alloc),
            clock_steps: ClockSteps::new(alloc),
            others: ItemSteps::new(alloc),
        }
    }

    /// The same first uses.
    pub fn copy(&self) -> Result<FirstUses, AllocError>
        ensures { IfOk result (λ f. f ≡ self.now) }
    {
        Ok(FirstUses {
            blocks: self.blocks.copy()?,
            afters: self.afters.copy()?,
            commands: self.commands.copy()?,
            clock_steps: self.clock_steps.copy()?,
            others: self.others.copy()?,
        })
    }

    /// The first step that used an item, if any did.
    pub fn get(&self, item: &Item) -> Option<u64>
        ensures { result ≡ first_in self.now item.now }
    {
        match item {
            Item::Block(id) => self.blocks.get(id.number()),
            Item::After(id) => self.afters.get(id.number()),
            Item::Cmd(i) => self.commands.get(*i),
            Item::Within(time) => self.clock_steps.first_beyond(*time),
            _ => self.others.get(item),
        }
    }

    /// Notes that a step, no earlier than those noted, read an item, unless an earlier one did. Where memory is
    /// refused, nothing changes.
    #[inline(always)]
    pub fn note(&mut self, item: &Item, step: u64) -> Result<(), AllocError>
        requires step { step < 2 ^ 64 - 1 }
        requires clock { AreBelow (step + 1) self.old.clock_steps }
        ensures ok { OnOk result ((q : Item) →
            first_in self.new q ≡ or_later (first_in self.old q) (if is_use q item.now then Some step else None)) }
        ensures clock { AreBelow (step + 1) self.new.clock_steps }
        ensures err { OnErr result (self.new ≡ self.old) }
    {
        match item {
            Item::Block(id) => self.blocks.note(id.number(), step),
            Item::After(id) => self.afters.note(id.number(), step),
            Item::Cmd(i) => self.commands.note(*i, step),
            Item::Within(time) => self.clock_steps.note(step, *time),
            _ => self.others.note(item, step),
        }
    }

    /// Notes that a step asked this of a name, as [`FirstUses::note`] notes the item.
    #[inline(always)]
    pub fn note_asked(&mut self, asked: Asked, name: &Name, step: u64) -> Result<(), AllocError>
        ensures ok { OnOk result ((q : Item) → first_in self.new q ≡
            or_later (first_in self.old q) (if is_use q (items.Named asked name.now) then Some step else None)) }
        ensures clock { self.new.clock_steps ≡ self.old.clock_steps }
        ensures err { OnErr result (self.new ≡ self.old) }
    {
        self.others.note_asked(asked, name, step)
    }

    /// Forgets the steps from one on, that one too.
    pub fn forget(&mut self, from: u64)
        ensures value { (item : Item) → first_in self.new item ≡ below from (first_in self.old item) }
        ensures clock { AreBelow from self.new.clock_steps }
    {
        self.blocks.forget(from);
        self.afters.forget(from);
        self.commands.forget(from);
        self.clock_steps.forget(from);
        self.others.forget(from);
    }
}
