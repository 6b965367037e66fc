// Going back to a kept state.
ghost use Rattle.std.specs.Prelude.{◌≡◌, ◌+◌, ◌%◌, ◌<◌, ◌≤◌, ℕ};
ghost use Rattle.gw_meaning.specs.Listing.{Listing};
ghost use Rattle.gw_record.specs.Cutting.{WentBack};
ghost use Rattle.gw_record.specs.Tape.{Records, IsLastKept};

use crate::kept::{Kept, count_before, count_until};
use crate::recorded::Recorded;
use std::mem;

impl Recorded {
    /// Goes back to the last kept moment at or before `moment`, which is never before the start. What came after it is
    /// forgotten. At the tip's moment or after it nothing changes. It takes no memory.
    pub fn cut(&mut self, moment: u64)
        requires { self.old.start ≤ moment }
        ensures records { (t : Listing) (seed : ℕ) → Records t seed self.old → Records t seed self.new }
        ensures kept { (t : Listing) (seed : ℕ) → Records t seed self.old →
            IsLastKept t seed self.old moment self.new.moment }
        ensures every { self.new.every ≡ self.old.every }
        ensures start { self.new.start ≡ self.old.start }
    {
        if moment < self.moment {
            // Until it has gone back, a state may be due at the multiples after those that go.
            self.due = 0;
            let count = count_until(self.kept.as_slice(), moment);
            self.kept.truncate(count);
            match self.kept.pop() {
                Some(last) => self.go_back(last),
                None => (),
            }
        }
    }

    // Goes back to a state that is no longer among those kept.
    fn go_back(&mut self, to: Kept)
        ensures { WentBack self.old to self.new }
    {
        let count = count_before(self.ends.as_slice(), to.moment);
        self.ends.truncate(count);
        self.notes.go_back(to.moment, to.state.streams());
        self.moment = to.moment;
        self.ahead = steps_ahead(to.moment, self.every);
        self.due = 0;
        drop(mem::replace(&mut self.tip, to.state));
    }
}

// How many steps lead from a moment to the next multiple of a spacing.
fn steps_ahead(moment: u64, every: u64) -> u64
    requires { 1 ≤ every }
    ensures within { (1 ≤ result) × (result ≤ every) }
    ensures multiple { (moment + result) % every ≡ 0 }
{
    every - moment % every
}
