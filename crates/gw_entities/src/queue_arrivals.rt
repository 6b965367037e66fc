ghost use Rattle.std.specs.Prelude.{◌≡◌, ◌==◌, ◌<◌, [], Some, length, slice_get, IfOk, OnOk};
ghost use Rattle.gw_names.specs.declared.key.Key.{Key};
ghost use Rattle.gw_meaning.specs.QueueArrivals.{came, with_queue_arrival, AreOnce};

use crate::own_list::OwnList;
use gw_names::Key;
use std::alloc::{AllocError, Global};
use std::marker::Model;

/// Which transactions came to which queue since this was last cleared. A run clears it when the clock moves on. Copies
/// share the arrivals at queues.
#[derive(Drop)]
pub struct QueueArrivals {
    own: OwnList<()>,
}

impl Model for QueueArrivals {
    ghost use Rattle.std.specs.Prelude.{map};
    ghost use Rattle.gw_meaning.specs.QueueArrivals.{AreOnce};
    ghost use Rattle.gw_entities.specs.Keeping.{Arrivals, queue_arrival_of};
    ghost use Rattle.gw_entities.specs.Owned.{AreRising};

    ghost Value = { Arrivals };

    ghost view = { λ c. record {
      queue_arrivals = map queue_arrival_of c.own.entries;
      keys = c.own.keys;
      room = c.own.room;
    } };

    ghost invariant = { λ c. AreRising c.own.entries × AreOnce (map queue_arrival_of c.own.entries) };
}

impl QueueArrivals {
    /// Nobody came yet.
    pub fn new(alloc: Global) -> QueueArrivals
        ensures { result.queue_arrivals ≡ [] }
    {
        QueueArrivals {
            own: OwnList::new(alloc),
        }
    }

    /// Whether nobody came. None came to a queue twice.
    #[inline(always)]
    pub fn is_empty(&self) -> bool
        ensures empty { result ≡ (length self.now.queue_arrivals == 0) }
        ensures once { AreOnce self.now.queue_arrivals }
    {
        self.own.is_empty()
    }

    /// Whether a transaction came to a queue.
    #[inline(always)]
    pub fn has(&self, key: &Key, number: u64) -> bool
        ensures { result ≡ came self.now.queue_arrivals key.now number }
    {
        if self.own.is_empty() {
            return false;
        }
        self.own.get(number, key).is_some()
    }

    /// Makes room for one more coming to a queue, and returns the place of its key. It changes no coming.
    pub fn reserve(&mut self, key: &Key) -> Result<usize, AllocError>
        ensures room { OnOk result (0 < self.new.room) }
        ensures key { IfOk result (λ i. slice_get self.new.keys i ≡ Some key.now) }
        ensures within { IfOk result (λ i. i < length self.new.keys) }
        ensures queue_arrivals { self.new.queue_arrivals ≡ self.old.queue_arrivals }
    {
        self.own.reserve(key)
    }

    /// A transaction comes to the queue with the key at a place, unless it came there already.
    pub fn add(&mut self, number: u64, key: usize)
        requires room { 0 < self.old.room }
        requires key { key < length self.old.keys }
        ensures { (k : Key) → slice_get self.old.keys key ≡ Some k →
            self.new.queue_arrivals ≡ with_queue_arrival self.old.queue_arrivals k number }
    {
        self.own.put(number, key, ());
    }

    /// Forgets who came.
    pub fn clear(&mut self)
        ensures { self.new.queue_arrivals ≡ [] }
    {
        self.own.clear();
    }

    /// Copies share the arrivals at queues from now on.
    pub fn share(&mut self) -> Result<(), AllocError>
        ensures { self.new.queue_arrivals ≡ self.old.queue_arrivals }
    {
        self.own.share()
    }

    /// A copy.
    pub fn copy(&self) -> Result<QueueArrivals, AllocError>
        ensures { IfOk result (λ c. c.queue_arrivals ≡ self.now.queue_arrivals) }
    {
        let own = self.own.copy()?;
        Ok(QueueArrivals { own })
    }
}
