// Queries with the steps that are missing.
ghost use Rattle.std.specs.Prelude.{◌≡◌, ◌≢◌, ◌≤◌, ℕ, length, Some, IfOk};
ghost use Rattle.gw_meaning.specs.Listing.{seed_at, starts};
ghost use Rattle.gw_record.specs.Reaching.{Reaches};
ghost use Rattle.gw_record.specs.Tape.{Tape};
ghost use Rattle.gw_desk.specs.declared.answer.Answer.TheVariants as answers;
ghost use Rattle.gw_desk.specs.Book.{IsBook, run_in};
ghost use Rattle.gw_desk.specs.Replies.{answer_of};
ghost use Rattle.gw_desk.specs.Peeking.{IsUnfinished, Peeks, IsAnswer};
ghost use Rattle.gw_desk.specs.Finishing.{Finishes, IsMissing};

use crate::answer::Answer;
use crate::desk::Desk;
use crate::look::look_after;
use crate::recording::place_of;
use gw_record::Reach;
use std::alloc::{AllocError, Global};

impl Desk {
    /// The report of START `k` of a replication, or that there is no such START or replication, or that the step limit
    /// decides nothing. It makes just the steps that are missing for that; where memory is refused, the steps made
    /// stay.
    pub fn finish(&mut self, alloc: Global, rep: u64, k: u64) -> Answer
        ensures answer { IsAnswer (answer_of self.old.version (length self.old.edits) rep k) result }
        ensures steps { Finishes self.old rep k self.new }
        ensures decided { result ≢ answers.Memory → (n : ℕ) → IsUnfinished self.new rep k n → ⊥ }
        ensures idle { IsMissing self.old.version rep k → self.new ≡ self.old }
        ensures desk { IsBook self.new }
    {
        let Some(seed) = self.version.seed(rep) else {
            return Answer::NoReplication;
        };
        if k == 0 || self.version.starts() < k {
            return Answer::NoStart;
        }
        match self.make_steps(alloc, rep, k, seed) {
            Ok(reach) => self.answer_reach(alloc, rep, k, seed, reach),
            Err(_) => Answer::Memory,
        }
    }

    // Makes the steps that are missing for a START that there is.
    fn make_steps(
        &mut self,
        alloc: Global,
        rep: u64,
        k: u64,
        seed: u64,
    ) -> Result<Reach, AllocError>
        requires seed { seed_at self.old.version rep ≡ Some seed }
        requires some { 1 ≤ k }
        ensures steps { Finishes self.old rep k self.new }
        ensures desk { IsBook self.new }
        ensures reached { IfOk result (λ reach. (r : Tape) → run_in self.new.runs rep ≡ Some r →
            Reaches self.new.version seed k r reach) }
    {
        match place_of(self.runs.as_slice(), rep) {
            Some(place) => {
                let run = &mut self.runs[place].run;
                run.reach(alloc, &self.version, seed, k, &mut self.tally)
            }
            None => unreachable!(),
        }
    }

    // Answers what stopped the steps on the way to the end of a START that there is.
    fn answer_reach(&mut self, alloc: Global, rep: u64, k: u64, seed: u64, reach: Reach) -> Answer
        requires some { 1 ≤ k }
        requires there { k ≤ starts self.old.version }
        requires seed { seed_at self.old.version rep ≡ Some seed }
        requires reached { (r : Tape) → run_in self.old.runs rep ≡ Some r → Reaches self.old.version seed k r reach }
        ensures peeks { Peeks self.old rep k result }
        ensures same { self.new ≡ self.old }
    {
        let Some(run) = self.run(rep) else {
            unreachable!()
        };
        let look = look_after(run, k, reach);
        self.answer_look(alloc, rep, k, seed, look)
    }
}
