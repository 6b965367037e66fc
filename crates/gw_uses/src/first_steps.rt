ghost use Rattle.std.specs.Prelude.{◌≡◌, ◌<◌, ◌≤◌, ◌^◌, ◌-◌, ◌==◌, ℕ, [], Some, if◌then◌else◌, IfOk, OnOk, OnErr, get_or, length};
ghost use Rattle.gw_meaning.specs.Reads.{or_later};
ghost use Rattle.gw_uses.specs.Steps.{never, known, step_at, below, IsLeastFrom};

use gw_lanes::least;
use std::alloc::{AllocError, Global};
use std::marker::Model;

/// Where nothing is used yet.
const NEVER: u64 = u64::MAX;

/// For each of the numbers from 0 on the first step that used it, if any did.
#[derive(Drop)]
pub struct FirstSteps {
    steps: Vec<u64>,
}

impl Model for FirstSteps {
    ghost use Rattle.std.specs.Prelude.{List, ℕ};

    ghost Value = { List ℕ };

    ghost view = { λ f. f.steps.items };
}

impl FirstSteps {
    /// Nothing used yet.
    pub fn new(alloc: Global) -> FirstSteps
        ensures { result ≡ [] }
    {
        FirstSteps {
            steps: Vec::new(alloc),
        }
    }

    /// The same first steps.
    pub fn copy(&self) -> Result<FirstSteps, AllocError>
        ensures { IfOk result (λ f. f ≡ self.now) }
    {
        let steps = Vec::from_slice(*self.steps.allocator(), self.steps.as_slice())?;
        Ok(FirstSteps { steps })
    }

    /// The first step that used this number, if any did.
    pub fn get(&self, number: u64) -> Option<u64>
        ensures { result ≡ step_at self.now number }
    {
        match self.steps.get(number as usize) {
            Some(step) => known(*step),
            None => None,
        }
    }

    /// Notes that a step, below 2^64 - 1, used this number, unless one is noted already. Where memory is refused,
    /// nothing changes.
    #[inline(always)]
    pub fn note(&mut self, number: u64, step: u64) -> Result<(), AllocError>
        requires { step < 2 ^ 64 - 1 }
        ensures ok { OnOk result ((k : ℕ) →
            step_at self.new k ≡ (if number == k then or_later (step_at self.old k) (Some step)
            else step_at self.old k)) }
        ensures err { OnErr result (self.new ≡ self.old) }
    {
        self.make_room(number)?;
        let at = number as usize;
        if self.steps[at] == NEVER {
            self.steps[at] = step;
        }
        Ok(())
    }

    // Makes the table so long that it has a place for this number.
    #[inline(always)]
    fn make_room(&mut self, number: u64) -> Result<(), AllocError>
        ensures room { OnOk result (number < length self.new) }
        ensures same { OnOk result ((k : ℕ) → get_or self.new k never ≡ get_or self.old k never) }
        ensures err { OnErr result (self.new ≡ self.old) }
    {
        if number as usize >= self.steps.len() {
            return self.lengthen(number as usize);
        }
        Ok(())
    }

    // Makes the table, which is shorter, so long that its last place is this one.
    #[cold]
    #[inline(never)]
    fn lengthen(&mut self, last: usize) -> Result<(), AllocError>
        requires { length self.old ≤ last }
        ensures room { OnOk result (last < length self.new) }
        ensures same { OnOk result ((k : ℕ) → get_or self.new k never ≡ get_or self.old k never) }
        ensures err { OnErr result (self.new ≡ self.old) }
    {
        let size = last.checked_add(1).ok_or(AllocError)?;
        self.steps.resize(size, NEVER)?;
        Ok(())
    }

    /// The least of the first steps of the numbers from one on, if one of them was used.
    pub fn least_from(&self, number: u64) -> Option<u64>
        ensures { IsLeastFrom self.now number result }
    {
        if number >= self.steps.len() as u64 {
            return None;
        }
        match least(&self.steps[number as usize..]) {
            Some(step) => known(step),
            None => None,
        }
    }

    /// Forgets the steps from one on, that one too.
    pub fn forget(&mut self, from: u64)
        ensures { (k : ℕ) → step_at self.new k ≡ below from (step_at self.old k) }
    {
        for step in self.steps.iter_mut() {
            if *step >= from {
                *step = NEVER;
            }
        }
    }
}

// The step, where it is one.
fn known(step: u64) -> Option<u64>
    ensures { result ≡ known step }
{
    if step < NEVER { Some(step) } else { None }
}
