ghost use Rattle.std.specs.Prelude.{◌≡◌, ◌==◌, ◌≤◌, ◌<◌, ◌^◌, ◌++◌, ◌∷◌, [], not, length, filter};
ghost use Rattle.std.specs.Prelude.{IfOk, OnOk, OnErr, IsTrue};
ghost use Rattle.gw_meaning.specs.declared.watched.Watched.{Watched};
ghost use Rattle.gw_meaning.specs.Watching.{Waiter, is_watched, transactions_of};
ghost use Rattle.gw_meaning.specs.Changes.{is_woken, all_lined_up};

use crate::groups::join;
use crate::laying::lay_anew;
use crate::readings::SharedReadings;
use crate::waking::{count_woken, line_up_all, sort_by_order, take_woken};
use gw_chains::PriorityChain;
use gw_expr::Row;
use gw_meaning::{Transaction, Watched};
use gw_shared::SharedList;
use std::alloc::{AllocError, Global};
use std::marker::Model;
use std::slice;

/// Lists are forgotten where there are more than two for each who waits, and twice so many besides. Then so much was
/// read or woken since the last time that laying them out anew costs no more than that did.
const MANY: usize = 32;

/// Who waits for a change of something that its attempt read, in order of waiting. Copies share what did not change.
#[derive(Drop)]
pub struct Retry {
    // Group by group, in order of the places, and of each group in order of coming.
    waiting: SharedList<Waiting>,
    // Many read the same, so what was read is kept once, and each waiter has its place. A thing that no waiter read is
    // mostly told without asking the lists: what they read is marked.
    readings: SharedReadings,
    // The order of the next one who comes.
    next: u64,
    // Where those who are woken are put in order of coming. It is empty but then.
    going: Vec<Waiting>,
}

/// A waiting transaction, the place of the list of what it read, and the order in which it came.
#[derive(Clone, Copy)]
pub struct Waiting {
    pub transaction: Transaction,
    pub place: usize,
    pub order: u64,
}

impl Model for Retry {
    ghost use Rattle.std.specs.Prelude.{◌≡◌, [], min, vec_len, vec_capacity};
    ghost use Rattle.gw_retry.specs.Waiting.{Retrying, waiters_of, AreKept};

    ghost Value = { Retrying };

    ghost view = { λ r. record {
      waiters = waiters_of r.readings.lists r.waiting.items;
      room = min r.waiting.room (vec_capacity r.going);
    } };

    ghost invariant = { λ r. AreKept r.readings r.next r.waiting.items
        × (r.going.items ≡ []) × (vec_len r.going ≡ 0) };
}

impl Retry {
    /// Nobody waits.
    pub fn new(alloc: Global) -> Retry
        ensures { result.waiters ≡ [] }
    {
        Retry {
            waiting: SharedList::new(alloc),
            readings: SharedReadings::new(alloc),
            next: 0,
            going: Vec::new(alloc),
        }
    }

    /// How many wait.
    pub fn len(&self) -> usize
        ensures len { result ≡ length self.now.waiters }
        ensures bound { result < 2 ^ 63 }
    {
        self.waiting.len()
    }

    /// Whether nobody waits.
    #[inline(always)]
    pub fn is_empty(&self) -> bool
        ensures { result ≡ (length self.now.waiters == 0) }
    {
        self.waiting.is_empty()
    }

    /// How many waiters read a thing.
    pub fn count(&self, thing: &Watched) -> usize
        ensures { result ≡ length (filter (λ (w : Waiter). is_watched w.read thing.now) self.now.waiters) }
    {
        self.count_woken(slice::from_ref(thing))
    }

    // How many waiters read anything that is written.
    fn count_woken(&self, written: &[Watched]) -> usize
        ensures { result ≡ length (filter (is_woken written.now) self.now.waiters) }
    {
        if self.is_untouched(written) {
            return 0;
        }
        count_woken(&self.waiting, &self.readings, written)
    }

    // Whether it is clear, without asking the lists, that nobody read anything that is written.
    #[inline(always)]
    fn is_untouched(&self, written: &[Watched]) -> bool
        ensures { IsTrue result → filter (is_woken written.now) self.now.waiters ≡ [] }
    {
        self.waiting.is_empty() || !self.readings.is_any_marked(written)
    }

    /// A transaction waits after the others, for a change of something that it read.
    ///
    /// # Errors
    ///
    /// Where memory is refused, nobody waits but those who did.
    pub fn watch(&mut self, x: Transaction, read: Row<Watched>) -> Result<(), AllocError>
        ensures ok { OnOk result (self.new.waiters ≡ self.old.waiters ++ record { transaction = x; read = read } ∷ []) }
        ensures err { OnErr result (self.new.waiters ≡ self.old.waiters) }
    {
        self.forget_read()?;
        if self.next == u64::MAX {
            return Err(AllocError);
        }
        self.waiting.reserve(1)?;
        let place = self.readings.add(read)?;
        let waiter = Waiting {
            transaction: x,
            place,
            order: self.next,
        };
        join(&mut self.waiting, waiter);
        self.next += 1;
        Ok(())
    }

    // What nobody who waits has read goes where there is much of it, lest it only grow. Where memory is refused, all is
    // as it was.
    fn forget_read(&mut self) -> Result<(), AllocError>
        ensures { self.new.waiters ≡ self.old.waiters }
    {
        if self.readings.len() / 2 > self.waiting.len() + MANY {
            return lay_anew(&mut self.waiting, &mut self.readings);
        }
        Ok(())
    }

    /// How many will be woken by what is written, with room for them to go. It changes no waiter.
    ///
    /// # Errors
    ///
    /// Where memory is refused.
    #[inline(always)]
    pub fn reserve(&mut self, written: &[Watched]) -> Result<usize, AllocError>
        ensures count { IfOk result (λ count. count ≡ length (filter (is_woken written.now) self.old.waiters)) }
        ensures room { IfOk result (λ count. count ≤ self.new.room) }
        ensures waiters { self.new.waiters ≡ self.old.waiters }
    {
        if self.is_untouched(written) {
            return Ok(0);
        }
        self.reserve_woken(written)
    }

    // The same, where somebody may wait for something that is written. The marks will change.
    #[inline(never)]
    fn reserve_woken(&mut self, written: &[Watched]) -> Result<usize, AllocError>
        ensures count { IfOk result (λ count. count ≡ length (filter (is_woken written.now) self.old.waiters)) }
        ensures room { IfOk result (λ count. count ≤ self.new.room) }
        ensures waiters { self.new.waiters ≡ self.old.waiters }
    {
        let count = count_woken(&self.waiting, &self.readings, written);
        self.readings.make_own()?;
        self.going.reserve(count)?;
        self.waiting.reserve(count)?;
        Ok(count)
    }

    /// Those who read anything that is written line up on the current chain, one after another in order of waiting. The
    /// others go on waiting. The room for them is what [`Retry::reserve`] made, and as much on the current chain.
    #[inline(always)]
    pub fn wake(&mut self, written: &[Watched], current: &mut PriorityChain)
        requires going { length (filter (is_woken written.now) self.old.waiters) ≤ self.old.room }
        requires room { length (filter (is_woken written.now) self.old.waiters) ≤ current.old.room }
        ensures current { current.new.items ≡
            all_lined_up (transactions_of (filter (is_woken written.now) self.old.waiters)) current.old.items }
        ensures waiters { self.new.waiters ≡ filter (λ w. not (is_woken written.now w)) self.old.waiters }
    {
        if self.is_untouched(written) {
            return;
        }
        self.wake_some(written, current);
    }

    // The same, where somebody may wait for something that is written. Nobody does any more then.
    #[inline(never)]
    fn wake_some(&mut self, written: &[Watched], current: &mut PriorityChain)
        requires going { length (filter (is_woken written.now) self.old.waiters) ≤ self.old.room }
        requires room { length (filter (is_woken written.now) self.old.waiters) ≤ current.old.room }
        ensures current { current.new.items ≡
            all_lined_up (transactions_of (filter (is_woken written.now) self.old.waiters)) current.old.items }
        ensures waiters { self.new.waiters ≡ filter (λ w. not (is_woken written.now w)) self.old.waiters }
    {
        take_woken(&mut self.waiting, &self.readings, written, &mut self.going);
        sort_by_order(&mut self.going);
        line_up_all(self.going.as_slice(), current);
        self.going.clear();
        self.readings.unmark(written);
    }

    /// Copies share from now on what it holds now. Its room is gone, but the waiters stay, also where memory is
    /// refused.
    ///
    /// # Errors
    ///
    /// Where memory is refused.
    pub fn share(&mut self) -> Result<(), AllocError>
        ensures { self.new.waiters ≡ self.old.waiters }
    {
        self.waiting.share()?;
        self.readings.share()
    }

    /// The same waiters.
    ///
    /// # Errors
    ///
    /// Where memory is refused.
    pub fn copy(&self) -> Result<Retry, AllocError>
        ensures { IfOk result (λ r. r.waiters ≡ self.now.waiters) }
    {
        let waiting = self.waiting.copy()?;
        let readings = self.readings.copy()?;
        Ok(Retry {
            waiting,
            readings,
            next: self.next,
            going: Vec::new(self.readings.allocator()),
        })
    }
}
