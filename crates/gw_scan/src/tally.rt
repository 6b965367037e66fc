ghost use Rattle.std.specs.Prelude.{◌≡◌};
ghost use Rattle.gw_meaning.specs.Machine.{raised};

use std::marker::Model;

/// How many steps were made. It stays once it is at its greatest value, 2^64 - 1.
#[derive(Drop)]
pub struct Tally {
    count: u64,
}

impl Model for Tally {
    ghost use Rattle.std.specs.Prelude.{ℕ};

    ghost Value = { ℕ };

    ghost view = { λ t. t.count };
}

impl Tally {
    /// No step yet.
    pub fn new() -> Tally
        ensures { result ≡ 0 }
    {
        Tally { count: 0 }
    }

    /// The number of steps.
    pub fn count(&self) -> u64
        ensures { result ≡ self.now }
    {
        self.count
    }

    // One step more.
    pub(crate) fn raise(&mut self)
        ensures { self.new ≡ raised self.old }
    {
        self.count = self.count.saturating_add(1);
    }
}
