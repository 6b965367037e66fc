ghost use Rattle.std.specs.Prelude.{◌≡◌, ℕ, ◌+◌, ◌≤◌, ◌↔◌, IsSome, IfSome};

use std::marker::Model;

/// The greatest time that the clock may reach, and the greatest horizon.
pub const LAST_CLOCK: u64 = 1_000_000_000_000;

/// The greatest time that a transaction may be put at: the last clock and the greatest value.
pub const LAST_TIME: u64 = 1_001_000_000_000;

/// A time of the simulation, in clock ticks from 0 to 1,001,000,000,000.
#[derive(Clone, Copy, PartialEq, Eq, PartialOrd, Ord, Hash)]
pub struct Time {
    ticks: u64,
}

impl Model for Time {
    ghost use Rattle.std.specs.Prelude.{ℕ, ◌≤◌};

    ghost Value = { ℕ };

    ghost view = { λ t. t.ticks };

    ghost invariant = { λ t. t.ticks ≤ 1001000000000 };

    ghost inverse = { λ n. record { ticks = n } };
}

impl Time {
    /// The time at which a run begins.
    pub const ZERO: Time = Time { ticks: 0 };

    /// The time of this many ticks, up to [`LAST_TIME`].
    pub fn new(ticks: u64) -> Option<Time>
        ensures in_range { IsSome result ↔ (ticks ≤ 1001000000000) }
        ensures value { IfSome result (λ t. t ≡ ticks) }
    {
        if ticks <= LAST_TIME {
            Some(Time { ticks })
        } else {
            None
        }
    }

    /// The ticks since the run began.
    pub fn ticks(self) -> u64
        ensures value { result ≡ self }
        ensures bound { result ≤ 1001000000000 }
    {
        self.ticks
    }
}

/// A time at which the clock may stand, in ticks from 0 to 1,000,000,000,000.
#[derive(Clone, Copy, PartialEq, Eq, PartialOrd, Ord, Hash)]
pub struct Clock {
    ticks: u64,
}

impl Model for Clock {
    ghost use Rattle.std.specs.Prelude.{ℕ, ◌≤◌};

    ghost Value = { ℕ };

    ghost view = { λ c. c.ticks };

    ghost invariant = { λ c. c.ticks ≤ 1000000000000 };

    ghost inverse = { λ n. record { ticks = n } };
}

impl Clock {
    /// The clock at the beginning of a run.
    pub const ZERO: Clock = Clock { ticks: 0 };

    /// The clock at a time, up to [`LAST_CLOCK`].
    pub fn at(time: Time) -> Option<Clock>
        ensures in_range { IsSome result ↔ (time ≤ 1000000000000) }
        ensures value { IfSome result (λ c. c ≡ time) }
    {
        if time.ticks <= LAST_CLOCK {
            Some(Clock { ticks: time.ticks })
        } else {
            None
        }
    }

    /// The time at which the clock stands.
    pub fn time(self) -> Time
        ensures { result ≡ self }
    {
        Time { ticks: self.ticks }
    }

    /// The time `span` ticks later.
    pub fn after(self, span: u64) -> Time
        requires { span ≤ 1000000000 }
        ensures { result ≡ self + span }
    {
        Time {
            ticks: self.ticks + span,
        }
    }
}
