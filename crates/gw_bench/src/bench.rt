ghost use Rattle.std.specs.Prelude.{◌≡◌, ◌≤◌, ◌<◌, ◌⊎◌, [], Some, IfErr, IfOk, IfSome, length};
ghost use Rattle.std.specs.Ordering.{nat_cmp};
ghost use mathlib.Core.List.{IsPrefix};
ghost use Rattle.gw_edit.specs.Leading.{accepted, version_of};
ghost use Rattle.gw_bench.specs.Faults.{Says};
ghost use Rattle.gw_bench.specs.Telling.{IsAnswered, IsCount, IsFinished, IsLast, IsUnworked};

use crate::fault::BenchFault;
use crate::hands::{Hands, SEATS};
use crate::held::Held;
use crate::leg::Leg;
use crate::pass::{Pass, RowName};
use crate::row::Row;
use gw_desk::{Answer, Post};
use gw_meaning::Edit;
use gw_model::Version;
use std::alloc::{AllocError, Global};
use std::cmp::Ordering;
use std::marker::PhantomData;
use std::sync::{Mutex, Wait};

/// A row, its opening version and the desk that follows it, for any number of threads.
///
/// An edit that is accepted stands in one box of the row for good. `pass`, `edit`, `versions` and `compare` take no lock
/// and wait for nobody. Each other call is the call of its name of what lies under the lock ([`Held`]).
#[derive(Drop)]
pub struct Bench<N: RowName> {
    row: Row,
    opening: Version,
    held: Mutex<Held<N>>,
    hands: Hands,
    every: u64,
    alloc: Global,
    of: PhantomData<N>,
    ghost row_is: { row ≡ N.boxes },
    ghost opening_is: { opening ≡ N.opening },
}

impl<N: RowName> Bench<N> {
    /// A bench over a row, with a desk of the opening version, which keeps the states at the multiples of `every`, 1 to
    /// 1,000,000.
    pub fn new(
        alloc: Global,
        row: Row,
        opening: Version,
        every: u64,
    ) -> Result<Bench<N>, AllocError>
        requires every { 1 ≤ every }
        requires row { row ≡ N.boxes }
        requires opening { opening ≡ N.opening }
        ensures { IfOk result (λ bench. bench.every ≡ every) }
    {
        let hands = Hands::new(alloc)?;
        let copy = opening.copy(alloc)?;
        let held = Mutex::new(Held::new(alloc, copy, every)?);
        Ok(Bench {
            row,
            opening,
            held,
            hands,
            every,
            alloc,
            of: PhantomData,
        })
    }

    /// How many steps lie between two kept states of a run.
    pub fn every(&self) -> u64
        ensures { result ≡ self.now.every }
    {
        self.every
    }

    /// A pass over the row as it is. What it has seen begins the row: see [`Bench::compare`].
    pub fn pass(&self) -> Result<Pass<N>, AllocError> {
        let mut pass = self.unread_pass()?;
        pass.read_on(self.alloc, &self.row)?;
        Ok(pass)
    }

    /// A pass that has seen nothing of the row yet: its version is the opening one.
    pub fn unread_pass(&self) -> Result<Pass<N>, AllocError>
        ensures { IfOk result (λ pass. pass ≡ []) }
    {
        let opening = self.opening.copy(self.alloc)?;
        Pass::new(self.alloc, opening)
    }

    /// Puts an edit into the first box that is empty, and returns its number.
    ///
    /// # Errors
    ///
    /// B1 where the row is full, B2 where the version of the front that is seen then refuses the edit, B3 for want of
    /// memory. The pass may have seen more then.
    pub fn edit(&self, pass: &mut Pass<N>, edit: Edit) -> Result<u64, BenchFault>
        ensures front { IsPrefix pass.old pass.new }
        ensures ok { IfOk result (λ n. IsLast N.opening pass.new edit n) }
        ensures new { IfOk result (λ n. length pass.old < n) }
        ensures err { IfErr result (λ fault. Says fault N.opening pass.new edit) }
    {
        'rounds: while (pass.len() as usize) < self.row.len() {
            let Ok(()) = pass.read_on(self.alloc, &self.row) else {
                return Err(BenchFault::Memory);
            };
            match pass.put_next(self.alloc, &self.row, &edit) {
                Ok(true) => return Ok(pass.len()),
                Ok(false) => {}
                Err(fault) => return Err(fault),
            }
        }
        Err(BenchFault::HistoryFull)
    }

    /// Reads on, and returns how many edits are seen.
    pub fn versions(&self, pass: &mut Pass<N>) -> Result<u64, AllocError>
        ensures front { IsPrefix pass.old pass.new }
        ensures count { IfOk result (λ n. n ≡ length pass.new) }
    {
        pass.read_on(self.alloc, &self.row)?;
        Ok(pass.len())
    }

    /// The order of the lengths of two fronts. One of the fronts begins the other, whichever threads used the passes.
    pub fn compare(&self, one: &Pass<N>, other: &Pass<N>) -> Ordering
        ensures order { result ≡ nat_cmp (length one.now) (length other.now) }
        ensures prefix { IsPrefix one.now other.now ⊎ IsPrefix other.now one.now }
    {
        one.meet(self.alloc, other);
        one.len().cmp(&other.len())
    }

    /// A leg of a replication, of the version of the front that the pass has then seen, up to the first empty box; none
    /// where there is no such replication or its run cannot go on.
    pub fn take(
        &self,
        rt: &impl Wait,
        pass: &mut Pass<N>,
        rep: u64,
    ) -> Result<Option<Leg<N>>, AllocError>
        ensures seen { IsPrefix pass.old pass.new }
        ensures leg { IfOk result (λ leg. IfSome leg (IsUnworked N.opening pass.new rep)) }
    {
        self.held.lock(rt).take(self.alloc, &self.row, pass, rep)
    }

    /// Takes over the steps of a leg, if they fit what stands under the lock. The leg is given up.
    pub fn post(&self, rt: &impl Wait, leg: Leg<N>) -> Result<Post, AllocError> {
        self.held.lock(rt).post(self.alloc, leg)
    }

    /// The report of START `k` of a replication from the recorded steps, of the version of the front that the pass has
    /// then seen, up to the first empty box.
    pub fn peek(
        &self,
        rt: &impl Wait,
        pass: &mut Pass<N>,
        rep: u64,
        k: u64,
    ) -> Result<Answer, AllocError>
        ensures seen { IsPrefix pass.old pass.new }
        ensures ok { IfOk result
            (IsAnswered (version_of N.opening pass.new) (length (accepted N.opening pass.new)) rep k) }
    {
        self.held.lock(rt).peek(self.alloc, &self.row, pass, rep, k)
    }

    /// The same, with the steps that are missing, which are made under the lock.
    pub fn finish(
        &self,
        rt: &impl Wait,
        pass: &mut Pass<N>,
        rep: u64,
        k: u64,
    ) -> Result<Answer, AllocError>
        ensures seen { IsPrefix pass.old pass.new }
        ensures ok { IfOk result
            (IsFinished (version_of N.opening pass.new) (length (accepted N.opening pass.new)) rep k) }
    {
        self.held
            .lock(rt)
            .finish(self.alloc, &self.row, pass, rep, k)
    }

    // How many steps of a replication are recorded, of the version of all edits that stand in the row.
    pub(crate) fn recorded(
        &self,
        rt: &impl Wait,
        pass: &mut Pass<N>,
        rep: u64,
    ) -> Result<Option<u64>, AllocError>
        ensures seen { IsPrefix pass.old pass.new }
        ensures ok { IfOk result (λ count. IsCount (version_of N.opening pass.new) rep (Some count)) }
    {
        self.held
            .lock(rt)
            .recorded(self.alloc, &self.row, pass, rep)
    }

    /// Notes that a worker, 0 to 15, has this replication in hand; 0 stands for none. No answer depends on it.
    pub fn set_hand(&self, worker: u64, rep: u64) {
        self.hands.begin(worker as usize, rep);
    }

    // The same of a seat.
    pub(crate) fn set_seat(&self, rep: u64) {
        self.hands.begin(SEATS, rep);
    }

    /// Whether a worker or a seat has this replication in hand, or had it a moment ago. No answer depends on it.
    pub fn is_in_hand(&self, rep: u64) -> bool {
        self.hands.are_on(rep)
    }
}
