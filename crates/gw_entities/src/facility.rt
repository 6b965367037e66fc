ghost use Rattle.std.specs.Prelude.{◌≡◌, is_some, if◌then◌else◌};
ghost use Rattle.gw_meaning.specs.Records.{never_owned, seized, released, facility_anew};

use crate::counted::Counted;
use crate::level::Level;
use gw_nums::Clock;
use std::marker::Model;

/// A facility: who owns it, how often it was taken, and how long it was owned. The count stays at its greatest value.
#[derive(Clone, Copy)]
pub struct Facility {
    owner: Option<u64>,
    captures: u64,
    level: Level,
}

impl Model for Facility {
    ghost use Rattle.std.specs.Prelude.{◌≡◌, is_some, if◌then◌else◌};
    ghost use Rattle.gw_meaning.specs.Records.{Ownership};

    ghost Value = { Ownership };

    ghost view = { λ f. record { owner = f.owner; captures = f.captures; level = f.level } };

    ghost invariant = { λ f. f.level.content ≡ (if is_some f.owner then 1 else 0) };

    ghost inverse = { λ o. record { owner = o.owner; captures = o.captures; level = o.level } };
}

impl Facility {
    /// A facility that nobody has taken yet.
    pub fn new() -> Facility
        ensures { result ≡ never_owned }
    {
        Facility {
            owner: None,
            captures: 0,
            level: Level::new(),
        }
    }

    /// The number of the transaction that owns it.
    pub fn owner(self) -> Option<u64>
        ensures { result ≡ self.owner }
    {
        self.owner
    }

    /// Whether it is owned.
    pub fn is_owned(self) -> bool
        ensures { result ≡ is_some self.owner }
    {
        self.owner.is_some()
    }

    /// How often it was taken.
    pub fn captures(self) -> u64
        ensures { result ≡ self.captures }
    {
        self.captures
    }

    /// Its content over time: 1 while it is owned, else 0.
    pub fn level(self) -> Level
        ensures level { result ≡ self.level }
        ensures content { result.content ≡ (if is_some self.owner then 1 else 0) }
    {
        self.level
    }

    /// A transaction takes it, whoever owned it before: whether it may is for the caller to decide.
    #[inline(always)]
    pub fn seize(&mut self, number: u64, clock: Clock)
        ensures { self.new ≡ seized number clock self.old }
    {
        self.owner = Some(number);
        self.captures = self.captures.saturating_add(1);
        self.level.change(1, clock);
    }

    /// Nobody owns it any more.
    #[inline(always)]
    pub fn release(&mut self, clock: Clock)
        ensures { self.new ≡ released clock self.old }
    {
        self.owner = None;
        self.level.change(0, clock);
    }
}

impl Counted for Facility {
    ghost anew = { facility_anew };

    // Whoever owns it goes on.
    fn anew(self, clock: Clock) -> Facility {
        Facility {
            captures: 0,
            level: self.level.restarted(clock),
            ..self
        }
    }
}
