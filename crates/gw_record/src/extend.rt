// One step after another, each kept before it is left.
ghost use Rattle.std.specs.Prelude.{◌≡◌, ◌≢◌, ◌+◌, ◌-◌, ◌%◌, ◌≤◌, ◌<◌, ℕ, Ok, IfOk, OnOk, OnErr, length, IsTrue, IsFalse};
ghost use Rattle.gw_meaning.specs.Listing.{Listing};
ghost use Rattle.gw_meaning.specs.Step.{step};
ghost use Rattle.gw_scan.specs.Stepping.{Counts};
ghost use Rattle.gw_record.specs.Tape.{Records, IsKeptUp, IsWanted, IsThere};
ghost use Rattle.gw_record.specs.Extending.{Goes, Extends, tallied};

use crate::kept::Kept;
use crate::recorded::Recorded;
use gw_model::Version;
use gw_scan::{Tally, Turn, step};
use std::alloc::{AllocError, Global};

impl Recorded {
    /// Makes `steps` more steps of the version's run with this seed, or those up to the step limit or to the run's end,
    /// counts them and says how many they are: 0 where the run cannot go on. Where memory is refused, the steps made
    /// stay, each with its first uses, and nothing stays of the one that was not made.
    pub fn extend(
        &mut self,
        alloc: Global,
        version: &Version,
        seed: u64,
        steps: u64,
        tally: &mut Tally,
    ) -> Result<u64, AllocError>
        requires { Records version.now seed self.old }
        ensures records { Records version.now seed self.new }
        ensures every { self.new.every ≡ self.old.every }
        ensures start { self.new.start ≡ self.old.start }
        ensures done { IfOk result (λ made. Extends version.now seed steps made self.old self.new) }
        ensures grows { self.old.moment ≤ self.new.moment }
        ensures bound { self.new.moment ≤ self.old.moment + steps }
        ensures tally { tally.new ≡ tallied tally.old (self.new.moment - self.old.moment) }
    {
        for made in 0..steps {
            if self.moment >= version.limit() {
                return Ok(made);
            }
            match self.go(alloc, version, seed, tally)? {
                Turn::Moved => (),
                Turn::Ended(_) => return Ok(made),
            }
        }
        Ok(steps)
    }

    // One step further, if the run goes on.
    #[inline(always)]
    pub(crate) fn go(
        &mut self,
        alloc: Global,
        version: &Version,
        seed: u64,
        tally: &mut Tally,
    ) -> Result<Turn, AllocError>
        requires records { Records version.now seed self.old }
        requires room { self.old.moment < version.now.limit }
        requires bound { self.old.moment < 1000000 }
        ensures records { Records version.now seed self.new }
        ensures every { self.new.every ≡ self.old.every }
        ensures start { self.new.start ≡ self.old.start }
        ensures told { IfOk result (λ turn. Goes version.now seed turn self.old self.new) }
        ensures tally { IfOk result (λ turn. Counts turn tally.old tally.new) }
        ensures err { OnErr result ((self.new.moment ≡ self.old.moment) × (tally.new ≡ tally.old)) }
    {
        self.keep()?;
        self.notes.begin(self.moment);
        let turn = step(alloc, version, seed, &mut self.tip, &mut self.notes, tally)?;
        self.notes.lemma_clock_steps_rise();
        if let Turn::Moved = turn {
            self.move_on();
        }
        Ok(turn)
    }

    // One step further: the next multiple of the spacing comes one step nearer. At a multiple a state is to be kept.
    #[inline(always)]
    fn move_on(&mut self)
        requires { self.old.moment < 1000000 }
        ensures { self.new ≡ record self.old { moment = self.old.moment + 1 } }
    {
        self.moment += 1;
        self.ahead -= 1;
        if self.ahead == 0 {
            self.ahead = self.every;
            self.due = 0;
        }
    }

    // Keeps the tip where it stands at the start or a multiple of the spacing, or a START is complete there, so that
    // the run may leave it.
    #[inline(always)]
    fn keep(&mut self) -> Result<(), AllocError>
        requires { self.old.start ≤ self.old.moment }
        ensures records { (t : Listing) (seed : ℕ) → Records t seed self.old → Records t seed self.new }
        ensures ok { OnOk result ((t : Listing) (seed : ℕ) → Records t seed self.old → IsKeptUp t seed self.new) }
        ensures same { (self.new.moment ≡ self.old.moment) × (self.new.every ≡ self.old.every) ×
            (self.new.start ≡ self.old.start) × (self.new.tip ≡ self.old.tip) × (self.new.firsts ≡ self.old.firsts) }
    {
        if self.is_due() {
            self.keep_due()?;
        }
        Ok(())
    }

    // Whether there may be something left to keep at the tip.
    fn is_due(&self) -> bool
        ensures { IsFalse result → (t : Listing) (seed : ℕ) → Records t seed self.now → IsKeptUp t seed self.now }
    {
        self.due <= self.tip.complete()
    }

    // Keeps what is left to keep at the tip.
    #[inline(always)]
    fn keep_due(&mut self) -> Result<(), AllocError>
        requires { self.old.start ≤ self.old.moment }
        ensures records { (t : Listing) (seed : ℕ) → Records t seed self.old → Records t seed self.new }
        ensures ok { OnOk result ((t : Listing) (seed : ℕ) → Records t seed self.old → IsKeptUp t seed self.new) }
        ensures same { (self.new.moment ≡ self.old.moment) × (self.new.every ≡ self.old.every) ×
            (self.new.start ≡ self.old.start) × (self.new.tip ≡ self.old.tip) × (self.new.firsts ≡ self.old.firsts) }
    {
        if self.is_wanted() {
            self.keep_state()?;
            self.keep_end()?;
        }
        self.due = self.ends.len() as u64 + 1;
        Ok(())
    }

    // Keeps the state at the tip, which is wanted.
    #[cold]
    #[inline(never)]
    fn keep_state(&mut self) -> Result<(), AllocError>
        requires { (t : Listing) (seed : ℕ) → Records t seed self.old →
            IsWanted t seed self.old.every self.old.start self.old.moment }
        ensures records { (t : Listing) (seed : ℕ) → Records t seed self.old → Records t seed self.new }
        ensures ok { OnOk result (IsThere self.new.kept self.new.moment) }
        ensures same { (self.new.moment ≡ self.old.moment) × (self.new.every ≡ self.old.every) ×
            (self.new.start ≡ self.old.start) × (self.new.tip ≡ self.old.tip) × (self.new.ends ≡ self.old.ends) ×
            (self.new.firsts ≡ self.old.firsts) }
    {
        if !self.is_there() {
            self.tip.share()?;
            let state = self.tip.copy()?;
            self.kept.push(Kept {
                moment: self.moment,
                state,
            })?;
        }
        Ok(())
    }

    // Whether the tip's state is to be kept when the run leaves it. Where this says no, a state that is wanted is kept
    // already.
    fn is_wanted(&self) -> bool
        ensures yes { IsTrue result → (t : Listing) (seed : ℕ) → Records t seed self.now →
            IsWanted t seed self.now.every self.now.start self.now.moment }
        ensures no { IsFalse result → (t : Listing) (seed : ℕ) → Records t seed self.now →
            IsWanted t seed self.now.every self.now.start self.now.moment → IsThere self.now.kept self.now.moment }
        ensures ends { IsFalse result → self.now.tip.complete ≤ length self.now.ends }
        ensures behind { IsFalse result → self.now.moment ≢ self.now.start }
        ensures between { IsFalse result → self.now.moment % self.now.every ≢ 0 }
    {
        if self.moment == self.start {
            return true;
        }
        self.ahead == self.every || (self.ends.len() as u64) < self.tip.complete()
    }

    // Whether the tip's state is kept.
    fn is_there(&self) -> bool
        ensures yes { IsTrue result → IsThere self.now.kept self.now.moment }
    {
        match self.kept.last() {
            Some(last) => last.moment == self.moment,
            None => false,
        }
    }

    // Notes the tip, which is kept, as a START end where it is one.
    #[cold]
    #[inline(never)]
    fn keep_end(&mut self) -> Result<(), AllocError>
        requires { IsThere self.old.kept self.old.moment }
        ensures records { (t : Listing) (seed : ℕ) → Records t seed self.old → Records t seed self.new }
        ensures ok { OnOk result ((t : Listing) (seed : ℕ) →
            Records t seed self.old → self.new.tip.complete ≤ length self.new.ends) }
        ensures same { (self.new.moment ≡ self.old.moment) × (self.new.every ≡ self.old.every) ×
            (self.new.start ≡ self.old.start) × (self.new.tip ≡ self.old.tip) × (self.new.kept ≡ self.old.kept) ×
            (self.new.firsts ≡ self.old.firsts) }
    {
        if (self.ends.len() as u64) < self.tip.complete() {
            self.ends.push(self.moment)?;
        }
        Ok(())
    }
}
