ghost use Rattle.std.specs.Prelude.{◌≡◌, ◌-◌, false, true, if◌then◌else◌, nat_lt};
ghost use Rattle.gw_meaning.specs.Machine.{raised};

use std::marker::Model;

/// How far the commands of a run are.
#[derive(Clone, Copy)]
pub struct Progress {
    remaining: u64,
    commands: u64,
    complete: u64,
    primed: bool,
}

impl Model for Progress {
    ghost use Rattle.gw_state.specs.Parts.{Standing};

    ghost Value = { Standing };

    ghost view = { λ p. record {
      remaining = p.remaining;
      commands = p.commands;
      complete = p.complete;
      primed = p.primed;
    } };

    ghost inverse = { λ s. record {
      remaining = s.remaining;
      commands = s.commands;
      complete = s.complete;
      primed = s.primed;
    } };
}

impl Progress {
    /// No command is done.
    pub fn zero() -> Progress
        ensures { result ≡ record { remaining = 0; commands = 0; complete = 0; primed = false } }
    {
        Progress {
            remaining: 0,
            commands: 0,
            complete: 0,
            primed: false,
        }
    }

    /// What is left of the termination count of the START under way, and 0 where none is.
    pub fn remaining(&self) -> u64
        ensures { result ≡ self.now.remaining }
    {
        self.remaining
    }

    /// How many commands are done.
    pub fn commands(&self) -> u64
        ensures { result ≡ self.now.commands }
    {
        self.commands
    }

    /// How many STARTs are complete.
    pub fn complete(&self) -> u64
        ensures { result ≡ self.now.complete }
    {
        self.complete
    }

    /// Whether the GENERATEs have their first transactions.
    pub fn is_primed(&self) -> bool
        ensures { result ≡ self.now.primed }
    {
        self.primed
    }

    /// A START with this termination count is under way.
    pub fn start(&mut self, count: u64)
        ensures { self.new ≡ record self.old {
          remaining = count;
          commands = raised self.old.commands;
          primed = true;
        } }
    {
        self.remaining = count;
        self.commands = self.commands.saturating_add(1);
        self.primed = true;
    }

    /// One command more is done.
    pub(crate) fn count_command(&mut self)
        ensures { self.new ≡ record self.old { commands = raised self.old.commands } }
    {
        self.commands = self.commands.saturating_add(1);
    }

    /// Takes a count from the termination count, which completes the START at 0.
    pub(crate) fn count_down(&mut self, count: u64)
        ensures { self.new ≡ record self.old {
          remaining = self.old.remaining - count;
          complete = (if nat_lt count self.old.remaining then self.old.complete else raised self.old.complete);
        } }
    {
        if count >= self.remaining {
            self.complete = self.complete.saturating_add(1);
        }
        self.remaining = self.remaining.saturating_sub(count);
    }

    /// No START is under way, and the next one primes the GENERATEs.
    pub fn clear(&mut self)
        ensures { self.new ≡ record self.old { remaining = 0; primed = false } }
    {
        self.remaining = 0;
        self.primed = false;
    }
}
