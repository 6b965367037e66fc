ghost use Rattle.std.specs.Prelude.{◌≡◌, ◌≤◌};
ghost use Rattle.gw_meaning.specs.Records.{never_used, entered, left, storage_anew};

use crate::counted::Counted;
use crate::level::Level;
use gw_nums::Clock;
use std::marker::Model;

/// A storage: how many units are in use and came into use. Each count stays at its greatest value. How many units it
/// has is no matter of the run.
#[derive(Clone, Copy)]
pub struct Storage {
    entries: u64,
    least: u64,
    greatest: u64,
    level: Level,
}

impl Model for Storage {
    ghost use Rattle.std.specs.Prelude.{◌≤◌};
    ghost use Rattle.gw_meaning.specs.Records.{Store};

    ghost Value = { Store };

    ghost view = { λ s. record { entries = s.entries; least = s.least; greatest = s.greatest; level = s.level } };

    ghost invariant = { λ s. (s.least ≤ s.level.content) × (s.level.content ≤ s.greatest) };

    ghost inverse = { λ s. record { entries = s.entries; least = s.least; greatest = s.greatest; level = s.level } };
}

impl Storage {
    /// A storage that was never used.
    pub fn new() -> Storage
        ensures { result ≡ never_used }
    {
        Storage {
            entries: 0,
            least: 0,
            greatest: 0,
            level: Level::new(),
        }
    }

    /// Units that came into use.
    pub fn entries(self) -> u64
        ensures { result ≡ self.entries }
    {
        self.entries
    }

    /// The least content.
    pub fn least(self) -> u64
        ensures value { result ≡ self.least }
        ensures content { result ≤ self.level.content }
    {
        self.least
    }

    /// The greatest content.
    pub fn greatest(self) -> u64
        ensures value { result ≡ self.greatest }
        ensures content { self.level.content ≤ result }
    {
        self.greatest
    }

    /// Its content over time: the units in use.
    pub fn level(self) -> Level
        ensures { result ≡ self.level }
    {
        self.level
    }

    /// So many units come into use.
    #[inline(always)]
    pub fn enter(&mut self, units: u64, clock: Clock)
        ensures { self.new ≡ entered units clock self.old }
    {
        let content = self.level.content().saturating_add(units);
        self.entries = self.entries.saturating_add(units);
        self.greatest = self.greatest.max(content);
        self.level.change(content, clock);
    }

    /// So many units are given back, at most all.
    #[inline(always)]
    pub fn leave(&mut self, units: u64, clock: Clock)
        ensures { self.new ≡ left units clock self.old }
    {
        let content = self.level.content().saturating_sub(units);
        self.least = self.least.min(content);
        self.level.change(content, clock);
    }
}

impl Counted for Storage {
    ghost anew = { storage_anew };

    // What is in use stays.
    fn anew(self, clock: Clock) -> Storage {
        Storage {
            entries: 0,
            least: self.level.content(),
            greatest: self.level.content(),
            level: self.level.restarted(clock),
        }
    }
}
