ghost use Rattle.std.specs.Prelude.{◌≡◌, ◌≤◌};
ghost use Rattle.gw_meaning.specs.Records.{no_line, queued, departed, queue_anew};

use crate::counted::Counted;
use crate::level::Level;
use gw_nums::Clock;
use std::marker::Model;

/// A queue: how much is in it, came, and went at once. Each count stays at its greatest value.
#[derive(Clone, Copy)]
pub struct Queue {
    entries: u64,
    zero_entries: u64,
    greatest: u64,
    level: Level,
}

impl Model for Queue {
    ghost use Rattle.std.specs.Prelude.{◌≤◌};
    ghost use Rattle.gw_meaning.specs.Records.{Line};

    ghost Value = { Line };

    ghost view = { λ q. record {
      entries = q.entries;
      zero_entries = q.zero_entries;
      greatest = q.greatest;
      level = q.level;
    } };

    ghost invariant = { λ q. q.level.content ≤ q.greatest };

    ghost inverse = { λ l. record {
      entries = l.entries;
      zero_entries = l.zero_entries;
      greatest = l.greatest;
      level = l.level;
    } };
}

impl Queue {
    /// A queue in which nothing stood yet.
    pub fn new() -> Queue
        ensures { result ≡ no_line }
    {
        Queue {
            entries: 0,
            zero_entries: 0,
            greatest: 0,
            level: Level::new(),
        }
    }

    /// Units that came.
    pub fn entries(self) -> u64
        ensures { result ≡ self.entries }
    {
        self.entries
    }

    /// Units of departs at the clock at which their transaction last came.
    pub fn zero_entries(self) -> u64
        ensures { result ≡ self.zero_entries }
    {
        self.zero_entries
    }

    /// The greatest content.
    pub fn greatest(self) -> u64
        ensures value { result ≡ self.greatest }
        ensures content { self.level.content ≤ result }
    {
        self.greatest
    }

    /// Its content over time.
    pub fn level(self) -> Level
        ensures { result ≡ self.level }
    {
        self.level
    }

    /// So many units come.
    #[inline(always)]
    pub fn enter(&mut self, units: u64, clock: Clock)
        ensures { self.new ≡ queued units clock self.old }
    {
        let content = self.level.content().saturating_add(units);
        self.entries = self.entries.saturating_add(units);
        self.greatest = self.greatest.max(content);
        self.level.change(content, clock);
    }

    /// So many units go, at most all; `zero` says that the transaction came to the queue at this clock.
    #[inline(always)]
    pub fn depart(&mut self, units: u64, clock: Clock, zero: bool)
        ensures { self.new ≡ departed units clock zero self.old }
    {
        if zero {
            self.zero_entries = self.zero_entries.saturating_add(units);
        }
        let content = self.level.content().saturating_sub(units);
        self.level.change(content, clock);
    }
}

impl Counted for Queue {
    ghost anew = { queue_anew };

    // What stands in it stays.
    fn anew(self, clock: Clock) -> Queue {
        Queue {
            entries: 0,
            zero_entries: 0,
            greatest: self.level.content(),
            level: self.level.restarted(clock),
        }
    }
}
