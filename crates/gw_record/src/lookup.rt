// What a recorded run answers, without a walk over its steps.
ghost use Rattle.std.specs.Prelude.{◌≡◌, ℕ, option_copied};
ghost use Rattle.gw_meaning.specs.Listing.{Listing};
ghost use Rattle.gw_meaning.specs.Reads.{first_reading, first_use, is_command_use};
ghost use Rattle.gw_meaning.specs.declared.item.Item.TheVariants as items;
ghost use Rattle.gw_record.specs.Tape.{Records};
ghost use Rattle.gw_uses.specs.Asks.{is_ask};
ghost use Rattle.gw_record.specs.Lookups.{IsStateAt, IsEndOf};

use crate::kept::state_in;
use crate::recorded::Recorded;
use gw_meaning::Item;
use gw_names::Name;
use gw_nums::Time;
use gw_state::State;

impl Recorded {
    /// The state after so many steps, where it is kept: at the start, at the multiples of the spacing and the START
    /// ends after it, and at the tip. There is none before the start or after the tip.
    pub fn state_at(&self, moment: u64) -> Option<&State>
        ensures { (t : Listing) (seed : ℕ) → Records t seed self.now →
            IsStateAt t seed self.now moment (option_copied result) }
    {
        if moment == self.moment {
            return Some(&self.tip);
        }
        state_in(self.kept.as_slice(), moment)
    }

    /// The moment right after the step that completed the k-th START, from 1, if it is complete at the tip. It may
    /// lie before the start. There is no START 0.
    pub fn start_end(&self, k: u64) -> Option<u64>
        ensures { (t : Listing) (seed : ℕ) → Records t seed self.now → IsEndOf t seed self.now k result }
    {
        if k == 0 {
            return None;
        }
        if let Some(moment) = self.ends.get((k - 1) as usize) {
            return Some(*moment);
        }
        if self.tip.complete() == k {
            Some(self.moment)
        } else {
            None
        }
    }

    /// The first step below the tip, from 0, that set the clock later than this time, if any did.
    pub fn first_clock(&self, time: Time) -> Option<u64>
        ensures { (t : Listing) (seed : ℕ) → Records t seed self.now →
            result ≡ first_use (items.Within time) t seed self.now.moment }
    {
        self.first_use(&Item::Within(time))
    }

    /// The first step below the tip, from 0, that read the i-th command, from 1, or one after it, if any did.
    pub fn first_command(&self, i: u64) -> Option<u64>
        ensures { (t : Listing) (seed : ℕ) → Records t seed self.now →
            result ≡ first_reading (is_command_use i) t seed self.now.moment }
    {
        self.notes.firsts().commands.least_from(i)
    }

    /// The first step below the tip, from 0, that asked of the storage of this name an amount that fits one of two
    /// capacities and not the other, or the capacity where the two differ, if any did. Without a storage before or
    /// after, any amount counts, and the capacity does.
    pub fn first_ask(&self, name: &Name, from: Option<u64>, to: Option<u64>) -> Option<u64>
        ensures { (t : Listing) (seed : ℕ) → Records t seed self.now →
            result ≡ first_reading (is_ask name.now from to) t seed self.now.moment }
    {
        self.notes.firsts().others.first_ask(name, from, to)
    }
}
