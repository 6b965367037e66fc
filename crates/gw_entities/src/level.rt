ghost use Rattle.std.specs.Prelude.{◌≡◌, ◌≤◌, ◌-◌, ◌*◌, ◌^◌, max};
ghost use Rattle.gw_meaning.specs.Levels.{at_first, sum_up_to, changed, restarted};

use gw_nums::Clock;
use std::marker::Model;

/// A content over time, with the sum of content times the time that it stood. A clock before the last change counts
/// as that of the change.
#[derive(Clone, Copy)]
pub struct Level {
    content: u64,
    // Up to the last change.
    sum: u128,
    // When the content changed last.
    at: Clock,
}

impl Model for Level {
    ghost use Rattle.std.specs.Prelude.{◌≤◌, ◌-◌, ◌*◌, ◌^◌};
    ghost use Rattle.gw_meaning.specs.Levels.{Course};

    ghost Value = { Course };

    ghost view = { λ l. record { content = l.content; sum = l.sum; at = l.at } };

    ghost invariant = { λ l. (l.at ≤ 1001000000000) × (l.sum ≤ (2 ^ 64 - 1) * l.at) };

    ghost inverse = { λ c. record { content = c.content; sum = c.sum; at = c.at } };
}

impl Level {
    /// A content of 0, since the clock stood at 0.
    pub fn new() -> Level
        ensures { result ≡ at_first }
    {
        Level {
            content: 0,
            sum: 0,
            at: Clock::ZERO,
        }
    }

    /// The content.
    pub fn content(self) -> u64
        ensures { result ≡ self.content }
    {
        self.content
    }

    /// The sum of content times the time that it stood, up to a clock.
    #[tactic(auto, using(crate::proofs::Sums::sum_within))]
    pub fn sum_up_to(self, clock: Clock) -> u128
        ensures value { result ≡ sum_up_to self clock }
        ensures bound { result ≤ (2 ^ 64 - 1) * max self.at clock }
        ensures small { result ≤ 10 ^ 32 }
    {
        let ticks = clock.time().ticks().saturating_sub(self.at.time().ticks());
        self.sum + self.content as u128 * ticks as u128
    }

    /// Another content from a clock on.
    pub fn change(&mut self, content: u64, clock: Clock)
        ensures { self.new ≡ changed content clock self.old }
    {
        *self = Level {
            content,
            sum: self.sum_up_to(clock),
            at: self.at.max(clock),
        };
    }

    /// The content as it is, its sum from a clock on.
    pub fn restarted(self, clock: Clock) -> Level
        ensures { result ≡ restarted clock self }
    {
        Level {
            content: self.content,
            sum: 0,
            at: clock,
        }
    }
}
