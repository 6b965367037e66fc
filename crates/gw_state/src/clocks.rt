ghost use Rattle.std.specs.Prelude.{◌≡◌};

use gw_nums::Clock;
use std::marker::Model;

/// The clocks of a run: the absolute one, and where it stood when the relative one began.
#[derive(Clone, Copy)]
pub struct Clocks {
    clock: Clock,
    since: Clock,
}

impl Model for Clocks {
    ghost use Rattle.gw_state.specs.Parts.{Times};

    ghost Value = { Times };

    ghost view = { λ c. record { clock = c.clock; since = c.since } };

    ghost inverse = { λ t. record { clock = t.clock; since = t.since } };
}

impl Clocks {
    /// The clocks before the first step.
    pub fn zero() -> Clocks
        ensures { result ≡ record { clock = 0; since = 0 } }
    {
        Clocks {
            clock: Clock::ZERO,
            since: Clock::ZERO,
        }
    }

    /// The absolute clock.
    pub fn clock(&self) -> Clock
        ensures { result ≡ self.now.clock }
    {
        self.clock
    }

    /// The absolute clock at the last RESET or CLEAR.
    pub fn since(&self) -> Clock
        ensures { result ≡ self.now.since }
    {
        self.since
    }

    /// The absolute clock moves on.
    pub(crate) fn advance(&mut self, clock: Clock)
        ensures { self.new ≡ record self.old { clock = clock } }
    {
        self.clock = clock;
    }

    /// The relative clock begins anew.
    pub fn reset(&mut self)
        ensures { self.new ≡ record self.old { since = self.old.clock } }
    {
        self.since = self.clock;
    }
}
