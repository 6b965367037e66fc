ghost use Rattle.std.specs.Prelude.{◌≡◌, ◌+◌, ◌<◌, ◌^◌, ◌-◌, IfOk, OnOk, OnErr};
ghost use Rattle.gw_streams.specs.Draws.{all_set};
ghost use Rattle.gw_meaning.specs.declared.item.Item.TheVariants as items;
ghost use Rattle.gw_uses.specs.Steps.{AreBelow};
ghost use Rattle.gw_uses.specs.Uses.{nothing_used};
ghost use Rattle.gw_asking.specs.Noted.{Asks, Forgets};

use gw_meaning::{Asked, Item};
use gw_names::Name;
use gw_streams::Streams;
use gw_uses::FirstUses;
use std::alloc::{AllocError, Global};
use std::marker::Model;

/// The last number that a step may have; the next one stands for no step.
const LAST: u64 = u64::MAX - 1;

/// What steps note on their way: for each item the first step that read it, and the streams after their draws.
#[derive(Drop)]
pub struct Notes {
    firsts: FirstUses,
    step: u64,
    pub(crate) streams: Streams,
}

impl Model for Notes {
    ghost use Rattle.std.specs.Prelude.{◌+◌, ◌<◌, ◌^◌, ◌-◌};
    ghost use Rattle.gw_uses.specs.Steps.{AreBelow};
    ghost use Rattle.gw_asking.specs.Noted.{Noted};

    ghost Value = { Noted };

    ghost view = { λ n. record { firsts = n.firsts; step = n.step; streams = n.streams } };

    ghost invariant = { λ n. (n.step < 2 ^ 64 - 1) × AreBelow (n.step + 1) n.firsts.clock_steps };
}

impl Notes {
    /// Nothing read yet, in front of step 0 from these streams.
    pub fn new(alloc: Global, streams: Streams) -> Notes
        ensures { result ≡ record { firsts = nothing_used; step = 0; streams = streams } }
    {
        Notes {
            firsts: FirstUses::new(alloc),
            step: 0,
            streams,
        }
    }

    /// The same notes.
    pub fn copy(&self) -> Result<Notes, AllocError>
        ensures { IfOk result (λ n. n ≡ self.now) }
    {
        Ok(Notes {
            firsts: self.firsts.copy()?,
            step: self.step,
            streams: self.streams,
        })
    }

    /// The first step that read each item.
    pub fn firsts(&self) -> &FirstUses
        ensures { result.now ≡ self.now.firsts }
    {
        &self.firsts
    }

    /// The streams after the draws.
    #[inline(always)]
    pub fn streams(&self) -> &Streams
        ensures { result.now ≡ self.now.streams }
    {
        &self.streams
    }

    /// Sets the streams for which a value stands, as an RMULT does.
    pub fn set_streams(&mut self, values: &[Option<u32>])
        ensures { self.new ≡ record self.old { streams = all_set self.old.streams values.now } }
    {
        self.streams.set_all(values);
    }

    /// For proofs alone: no clock step that is noted comes after the step that reads. It does nothing.
    pub fn lemma_clock_steps_rise(&self)
        ensures { AreBelow (self.now.step + 1) self.now.firsts.clock_steps }
    {
        let _ = &self.firsts;
    }

    /// From now on this step reads: below 2^64 - 1, and no earlier than any clock step that is noted.
    pub fn begin(&mut self, step: u64)
        requires step { step < 2 ^ 64 - 1 }
        requires clock { AreBelow (step + 1) self.old.firsts.clock_steps }
        ensures { self.new ≡ record self.old { step = step } }
    {
        self.step = step;
    }

    /// Forgets the steps from one on, that one too, and the draws after these streams.
    pub fn go_back(&mut self, step: u64, streams: Streams)
        ensures { Forgets step streams self.old self.new }
    {
        self.firsts.forget(step);
        self.step = step.min(LAST);
        self.streams = streams;
    }

    /// Forgets the step that reads, and its draws after these streams.
    #[cold]
    #[inline(never)]
    pub fn forget(&mut self, streams: Streams)
        ensures { Forgets self.old.step streams self.old self.new }
    {
        self.go_back(self.step, streams);
    }

    /// Notes an item that the step reads.
    #[inline(always)]
    pub fn note(&mut self, item: &Item) -> Result<(), AllocError>
        ensures ok { OnOk result (Asks self.old item.now self.new) }
        ensures err { OnErr result (self.new ≡ self.old) }
    {
        self.firsts.note(item, self.step)
    }

    /// Notes what the step asks of a name.
    #[inline(always)]
    pub fn note_asked(&mut self, asked: Asked, name: &Name) -> Result<(), AllocError>
        ensures ok { OnOk result (Asks self.old (items.Named asked name.now) self.new) }
        ensures err { OnErr result (self.new ≡ self.old) }
    {
        self.firsts.note_asked(asked, name, self.step)
    }
}
