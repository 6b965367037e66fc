// Legs are taken.
ghost use Rattle.std.specs.Prelude.{◌≡◌, Some, IfOk, IfSome, MatchBool};
ghost use Rattle.gw_meaning.specs.Listing.{seed_at};
ghost use Rattle.gw_desk.specs.Legs.{Takes, IsAtEnd, GoesOn, IsBranchOf};

use crate::desk::Desk;
use crate::leg::Leg;
use crate::recording::place_of;
use gw_meaning::Edit;
use gw_model::Version;
use gw_record::Recorded;
use gw_scan::{Tally, end_at};
use std::alloc::{AllocError, Global};
use std::sync::Arc;

impl Desk {
    /// A leg of a replication that starts where the record stands; none where there is no such replication, or its run
    /// cannot go on. The desk stays as it is.
    pub fn take(&mut self, alloc: Global, rep: u64) -> Result<Option<Leg>, AllocError>
        ensures takes { IfOk result (Takes self.old rep) }
        ensures same { self.new ≡ self.old }
    {
        self.lemma_is_book();
        let Some(seed) = self.version.seed(rep) else {
            return Ok(None);
        };
        let Some(run) = self.run(rep) else {
            unreachable!()
        };
        if is_at_end(alloc, &self.version, seed, run)? {
            return Ok(None);
        }
        let edits = self.shared_front(alloc)?;
        let opening = self.opening.copy(alloc)?;
        let version = self.version.copy(alloc)?;
        // (last, so that nobody gives it back)
        let run = self.branch_of(alloc, rep, seed)?;
        Ok(Some(Leg {
            opening,
            edits,
            version,
            replication: rep,
            seed,
            run,
            tally: Tally::new(),
        }))
    }

    // The recorded run of a replication from its tip on.
    fn branch_of(&mut self, alloc: Global, rep: u64, seed: u64) -> Result<Recorded, AllocError>
        requires { seed_at self.old.version rep ≡ Some seed }
        ensures branch { IfOk result (IsBranchOf self.old rep seed) }
        ensures same { self.new ≡ self.old }
    {
        let Some(place) = place_of(self.runs.as_slice(), rep) else {
            unreachable!()
        };
        self.runs[place].run.branch(alloc)
    }

    // The accepted edits, which legs share.
    fn shared_front(&mut self, alloc: Global) -> Result<Arc<Vec<Edit>>, AllocError>
        ensures value { IfOk result (λ front. front.value.items ≡ self.old.edits) }
        ensures same { self.new ≡ self.old }
    {
        share(alloc, &mut self.front, self.edits.as_slice())
    }
}

// These edits, as legs share them: those that are shared already, or copies.
fn share(
    alloc: Global,
    front: &mut Option<Arc<Vec<Edit>>>,
    edits: &[Edit],
) -> Result<Arc<Vec<Edit>>, AllocError>
    requires { IfSome front.old (λ shared. shared.value.items ≡ edits.now) }
    ensures value { IfOk result (λ shared. shared.value.items ≡ edits.now) }
    ensures kept { IfSome front.new (λ shared. shared.value.items ≡ edits.now) }
{
    if let Some(shared) = front {
        return Arc::try_clone(shared);
    }
    let own = Arc::new(alloc, copies(alloc, edits)?)?;
    let shared = Arc::try_clone(&own)?;
    *front = Some(own);
    Ok(shared)
}

// Whether a recorded run cannot go on.
fn is_at_end(
    alloc: Global,
    version: &Version,
    seed: u64,
    run: &Recorded,
) -> Result<bool, AllocError>
    ensures { IfOk result (λ ends.
        MatchBool ends (IsAtEnd version.now seed run.now) (GoesOn version.now seed run.now)) }
{
    if run.tip() >= version.limit() {
        return Ok(true);
    }
    Ok(end_at(alloc, version, seed, run.state())?.is_some())
}

// Copies of these edits.
fn copies(alloc: Global, edits: &[Edit]) -> Result<Vec<Edit>, AllocError>
    ensures { IfOk result (λ copies. copies.items ≡ edits.now) }
{
    let mut copies = Vec::with_capacity(alloc, edits.len())?;
    for edit in edits {
        copies.push(edit.copy(alloc)?)?;
    }
    Ok(copies)
}
