// Legs are posted.
ghost use Rattle.std.specs.Prelude.{◌≡◌, ◌++◌, ℕ, List, Some, IfOk, OnErr, IsTrue, IsFalse};
ghost use Rattle.gw_meaning.specs.Listing.{Listing, seed_at};
ghost use Rattle.gw_record.specs.Tape.{Records};
ghost use Rattle.gw_meaning.specs.declared.edit.Edit.{Edit as AnEdit};
ghost use Rattle.gw_desk.specs.Book.{IsBook};
ghost use Rattle.gw_desk.specs.Fates.{IsOf};
ghost use Rattle.gw_desk.specs.Posting.{Posts};
ghost use Rattle.gw_desk.specs.Records.{Continues, Offers};

use crate::desk::Desk;
use crate::leg::Leg;
use crate::recording::place_of;
use gw_edit::same_version;
use gw_meaning::Edit;
use gw_record::Recorded;
use std::alloc::{AllocError, Global};

/// What became of a leg.
#[derive(Clone, Copy)]
pub enum Post {
    /// Its steps are recorded.
    Posted,
    /// It is of no use to the desk.
    Dropped,
}

impl Desk {
    /// Takes over the steps of a leg, after all that was edited since it was taken, or drops it. The leg is given up.
    pub fn post(&mut self, alloc: Global, leg: Leg) -> Result<Post, AllocError>
        ensures posts { IfOk result (λ post. Posts self.old leg post self.new) }
        ensures err { OnErr result (self.new ≡ self.old) }
        ensures desk { IsBook self.new }
    {
        self.lemma_is_book();
        if !same_version(&leg.opening, &self.opening) {
            drop(leg);
            return Ok(Post::Dropped);
        }
        self.post_own(alloc, leg)
    }

    /// As [`Desk::post`], of a leg of a desk that was opened with the same version, which is not compared.
    pub fn post_own(&mut self, alloc: Global, leg: Leg) -> Result<Post, AllocError>
        requires opening { leg.opening ≡ self.old.opening }
        ensures posts { IfOk result (λ post. Posts self.old leg post self.new) }
        ensures err { OnErr result (self.new ≡ self.old) }
        ensures desk { IsBook self.new }
    {
        self.lemma_is_book();
        leg.is_leg();
        if !self.is_home_of(&leg) {
            drop(leg);
            return Ok(Post::Dropped);
        }
        let replication = leg.replication;
        let later = &self.edits.as_slice()[leg.edits.len()..];
        let Some(run) = leg.left_after(alloc, later)? else {
            return Ok(Post::Dropped);
        };
        let Some(seed) = self.version.seed(replication) else {
            unreachable!()
        };
        self.record(replication, seed, run)
    }

    // Whether the leg was taken of a desk with this spacing, after a front of these edits.
    fn is_home_of(&self, leg: &Leg) -> bool
        requires opening { leg.now.opening ≡ self.now.opening }
        ensures yes { IsTrue result → (later : List AnEdit) × IsOf self.now leg.now later }
        ensures no { IsFalse result → (later : List AnEdit) → IsOf self.now leg.now later → ⊥ }
    {
        if self.every != leg.run.every() {
            return false;
        }
        is_front(leg.edits.as_slice(), self.edits.as_slice())
    }

    // Takes over the steps of a run of the version that is open, where they go on beyond those recorded.
    fn record(&mut self, rep: u64, seed: u64, run: Recorded) -> Result<Post, AllocError>
        requires seed { seed_at self.old.version rep ≡ Some seed }
        requires records { Records self.old.version seed run }
        requires every { run.every ≡ self.old.every }
        ensures offers { IfOk result (λ post. Offers self.old rep run post self.new) }
        ensures err { OnErr result (self.new ≡ self.old) }
        ensures desk { IsBook self.new }
    {
        match place_of(self.runs.as_slice(), rep) {
            Some(place) => go_on(&mut self.runs[place].run, run),
            None => unreachable!(),
        }
    }
}

// Takes over the steps of a run that is offered, where they go on beyond those recorded.
fn go_on(own: &mut Recorded, run: Recorded) -> Result<Post, AllocError>
    requires zero { own.old.start ≡ 0 }
    requires every { run.every ≡ own.old.every }
    ensures continues { IfOk result (λ post. Continues own.old run post own.new) }
    ensures records { (t : Listing) (seed : ℕ) → Records t seed own.old → Records t seed run → Records t seed own.new }
    ensures every { own.new.every ≡ own.old.every }
    ensures start { own.new.start ≡ own.old.start }
    ensures err { OnErr result (own.new ≡ own.old) }
{
    let tip = own.tip();
    if run.start() > tip {
        drop(run);
        return Ok(Post::Dropped);
    }
    if run.tip() <= tip {
        drop(run);
        return Ok(Post::Dropped);
    }
    own.adopt(run)?;
    Ok(Post::Posted)
}

// Whether a list of edits begins with a front.
fn is_front(front: &[Edit], edits: &[Edit]) -> bool
    ensures yes { IsTrue result → (later : List AnEdit) × (edits.now ≡ front.now ++ later) }
    ensures no { IsFalse result → (later : List AnEdit) → edits.now ≡ front.now ++ later → ⊥ }
{
    if edits.len() < front.len() {
        return false;
    }
    for place in 0..front.len() {
        if !front[place].is(&edits[place]) {
            return false;
        }
    }
    true
}
