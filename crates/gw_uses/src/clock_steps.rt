ghost use Rattle.std.specs.Prelude.{◌≡◌, ◌+◌, ◌<◌, ℕ, [], Some, None, if◌then◌else◌, nat_lt, IfOk, OnOk, OnErr, IsTrue, IsFalse, ◌≤◌, ◌-◌, length, slice_index_or, option_map, slice_get};
ghost use Rattle.std.specs.List.Sorted.{IsNonDecreasingBy};
ghost use Rattle.gw_uses.specs.declared.clock_steps.ClockStep.{ClockStep};
ghost use Rattle.gw_meaning.specs.Reads.{or_later};
ghost use Rattle.gw_uses.specs.Parting.{AreUpTo, AreFirst};
ghost use Rattle.gw_uses.specs.Steps.{first_beyond, below, AreBelow, IsReached};

use gw_nums::Time;
use gw_shared::Growing;
use std::alloc::{AllocError, Global};
use std::marker::Model;

/// A clock step: its number in the run, and the time to which it set the clock.
#[derive(Clone, Copy)]
pub struct ClockStep {
    pub step: u64,
    pub time: Time,
}

/// The clock steps of a run that set the clock later than all before them, in order.
#[derive(Drop)]
pub struct ClockSteps {
    steps: Growing<ClockStep>,
}

impl Model for ClockSteps {
    ghost use Rattle.std.specs.Prelude.{List};
    ghost use Rattle.gw_uses.specs.declared.clock_steps.ClockStep.{ClockStep};
    ghost use Rattle.gw_uses.specs.Steps.{AreRising};

    ghost Value = { List ClockStep };

    ghost view = { λ c. c.steps };

    ghost invariant = { λ c. AreRising c.steps };
}

impl ClockSteps {
    /// No clock step yet.
    pub fn new(alloc: Global) -> ClockSteps
        ensures { result ≡ [] }
    {
        ClockSteps {
            steps: Growing::new(alloc),
        }
    }

    /// The same clock steps.
    pub fn copy(&self) -> Result<ClockSteps, AllocError>
        ensures { IfOk result (λ c. c ≡ self.now) }
    {
        Ok(ClockSteps {
            steps: self.steps.copy()?,
        })
    }

    /// The first clock step to a time later than this one, if there is one.
    pub(crate) fn first_beyond(&self, time: Time) -> Option<u64>
        ensures { result ≡ first_beyond time self.now }
    {
        step_of(&self.steps, count_until(&self.steps, time))
    }

    /// Notes a clock step no earlier in the run than those that are noted. Where memory is refused, nothing
    /// changes.
    #[inline(always)]
    pub fn note(&mut self, step: u64, time: Time) -> Result<(), AllocError>
        requires { AreBelow (step + 1) self.old }
        ensures ok { OnOk result ((t : ℕ) →
            first_beyond t self.new ≡ or_later (first_beyond t self.old) (if nat_lt t time then Some step else None)) }
        ensures below { OnOk result (AreBelow (step + 1) self.new) }
        ensures err { OnErr result (self.new ≡ self.old) }
    {
        if self.goes_beyond(time) {
            self.steps.push(ClockStep { step, time })?;
        }
        Ok(())
    }

    // Whether the clock was never set to this time or a later one.
    fn goes_beyond(&self, time: Time) -> bool
        ensures last { IsTrue result → (d : ClockStep) → 0 < length self.now →
            (slice_index_or self.now (length self.now - 1) d).time ≤ time }
        ensures known { IsFalse result → IsReached time self.now }
    {
        match self.steps.last() {
            Some(last) => last.time < time,
            None => true,
        }
    }

    /// Forgets the steps from one on, that one too.
    pub fn forget(&mut self, from: u64)
        ensures value { (t : ℕ) → first_beyond t self.new ≡ below from (first_beyond t self.old) }
        ensures below { AreBelow from self.new }
    {
        let count = count_below(&self.steps, from);
        self.steps.truncate(count);
    }
}

// How many of these clock steps are to no time later than this one.
fn count_until(steps: &Growing<ClockStep>, time: Time) -> usize
    requires { IsNonDecreasingBy (λ (s : ClockStep). s.time) steps.now }
    ensures { AreUpTo steps.now time result }
{
    let (mut low, mut high) = (0, steps.len());
    while low < high {
        let middle = low + (high - low) / 2;
        let s = steps.at(middle);
        if s.time <= time {
            low = middle + 1;
        } else {
            high = middle;
        }
    }
    low
}

// How many of these clock steps lie below a step.
fn count_below(steps: &Growing<ClockStep>, step: u64) -> usize
    requires { IsNonDecreasingBy (λ (s : ClockStep). s.step) steps.now }
    ensures { AreFirst steps.now step result }
{
    let (mut low, mut high) = (0, steps.len());
    while low < high {
        let middle = low + (high - low) / 2;
        let s = steps.at(middle);
        if s.step < step {
            low = middle + 1;
        } else {
            high = middle;
        }
    }
    low
}

// The step of the clock step at an index.
fn step_of(steps: &Growing<ClockStep>, at: usize) -> Option<u64>
    ensures { result ≡ option_map (λ (s : ClockStep). s.step) (slice_get steps.now at) }
{
    if at < steps.len() {
        Some(steps.at(at).step)
    } else {
        None
    }
}
