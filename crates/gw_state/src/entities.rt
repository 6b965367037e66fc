// The entities of a run.
ghost use Rattle.std.specs.Prelude.{◌≡◌, IfOk, OnOk, OnErr};
ghost use Rattle.gw_names.specs.declared.key.Key.{Key as Name};
ghost use Rattle.gw_meaning.specs.QueueArrivals.{came};
ghost use Rattle.gw_meaning.specs.Records.{entered, left};
ghost use Rattle.gw_meaning.specs.Tables.{with_value};
ghost use Rattle.gw_meaning.specs.declared.entity_change.Update.TheVariants as updates;
ghost use Rattle.gw_meaning.specs.Entities.{no_entities, facility_at, line_at, store_at, savevalue_at, switch_at, done, all_entered, entities_anew, later};
ghost use Rattle.gw_state.specs.Parts.{entities_of};

use crate::updates::{done_to_facility, done_to_queue, enter_all};
use gw_entities::{ByKey, Facility, Queue, QueueArrivals, Storage, Tables};
use gw_meaning::{FacilityUpdate, QueueUpdate, StorageUpdate, Update};
use gw_names::Key;
use gw_nums::{Clock, Val};
use std::alloc::{AllocError, Global};
use std::marker::Model;

/// The entities of a run, in order of first touch.
#[derive(Drop)]
pub struct Entities {
    facilities: ByKey<Facility>,
    queues: ByKey<Queue>,
    storages: ByKey<Storage>,
    savevalues: ByKey<Val>,
    switches: ByKey<bool>,
    tables: Tables,
    queue_arrivals: QueueArrivals,
}

impl Model for Entities {
    ghost use Rattle.gw_state.specs.Parts.{Stock};

    ghost Value = { Stock };

    ghost view = { λ e. record {
      facilities = e.facilities;
      queues = e.queues;
      storages = e.storages;
      savevalues = e.savevalues;
      switches = e.switches;
      tables = e.tables;
      queue_arrivals = e.queue_arrivals;
    } };
}

impl Entities {
    /// Nothing is touched yet.
    pub fn new(alloc: Global) -> Entities
        ensures { entities_of result ≡ no_entities }
    {
        Entities {
            facilities: ByKey::new(alloc),
            queues: ByKey::new(alloc),
            storages: ByKey::new(alloc),
            savevalues: ByKey::new(alloc),
            switches: ByKey::new(alloc),
            tables: Tables::new(alloc),
            queue_arrivals: QueueArrivals::new(alloc),
        }
    }

    /// The facilities that were touched.
    pub fn facilities(&self) -> &ByKey<Facility>
        ensures { result.now ≡ self.now.facilities }
    {
        &self.facilities
    }

    /// The queues that were touched.
    pub fn queues(&self) -> &ByKey<Queue>
        ensures { result.now ≡ self.now.queues }
    {
        &self.queues
    }

    /// The storages that were touched.
    pub fn storages(&self) -> &ByKey<Storage>
        ensures { result.now ≡ self.now.storages }
    {
        &self.storages
    }

    /// The tables that were touched.
    pub fn tables(&self) -> &Tables
        ensures { result.now ≡ self.now.tables }
    {
        &self.tables
    }

    /// A facility, which is free where nothing touched it yet.
    #[inline(always)]
    pub fn facility(&self, key: &Key) -> Facility
        ensures { result ≡ facility_at (entities_of self.now) key.now }
    {
        match self.facilities.get(key) {
            Some(facility) => facility,
            None => Facility::new(),
        }
    }

    /// A queue, which is empty where nothing touched it yet.
    #[inline(always)]
    pub fn queue(&self, key: &Key) -> Queue
        ensures { result ≡ line_at (entities_of self.now) key.now }
    {
        match self.queues.get(key) {
            Some(queue) => queue,
            None => Queue::new(),
        }
    }

    /// A storage, of which no unit is in use where nothing touched it yet.
    #[inline(always)]
    pub fn storage(&self, key: &Key) -> Storage
        ensures { result ≡ store_at (entities_of self.now) key.now }
    {
        match self.storages.get(key) {
            Some(storage) => storage,
            None => Storage::new(),
        }
    }

    /// The value of a savevalue, where a block set it.
    #[inline(always)]
    pub fn savevalue(&self, key: &Key) -> Option<Val>
        ensures { result ≡ savevalue_at (entities_of self.now) key.now }
    {
        self.savevalues.get(key)
    }

    /// Whether a switch is set. One that nothing touched yet is not.
    #[inline(always)]
    pub fn is_set(&self, key: &Key) -> bool
        ensures { result ≡ switch_at (entities_of self.now) key.now }
    {
        match self.switches.get(key) {
            Some(set) => set,
            None => false,
        }
    }

    /// Whether the transaction with a number came to a queue while the clock stands as it does.
    #[inline(always)]
    pub fn has_come(&self, key: &Key, number: u64) -> bool
        ensures { result ≡ came self.now.queue_arrivals.queue_arrivals key.now number }
    {
        self.queue_arrivals.has(key, number)
    }

    /// Makes of the entity with a key what an update says, at a clock, where the transaction with a number enters the block.
    /// Where memory is refused, nothing changes.
    #[inline(always)]
    pub fn make(
        &mut self,
        key: &Key,
        update: &Update,
        clock: Clock,
        number: u64,
    ) -> Result<(), AllocError>
        ensures ok { OnOk result (entities_of self.new ≡ done key.now update.now clock number (entities_of self.old)) }
        ensures err { OnErr result (entities_of self.new ≡ entities_of self.old) }
    {
        match update {
            Update::Facility(update) => self.make_of_facility(key, *update, clock, number),
            Update::Queue(update) => self.make_of_queue(key, *update, clock, number),
            Update::Storage(StorageUpdate::Enter { units }) => {
                self.make_of_entered(key, *units, clock)
            }
            Update::Storage(StorageUpdate::Leave { units, grants }) => {
                self.make_of_left(key, *units, grants.as_slice(), clock)
            }
            Update::Savevalue { to } => self.savevalues.put(key, *to),
            Update::Switch { set } => self.switches.put(key, *set),
            Update::Table { value } => self.tables.add(key, *value),
        }
    }

    // What an update makes of a facility.
    #[inline(never)]
    fn make_of_facility(
        &mut self,
        key: &Key,
        update: FacilityUpdate,
        clock: Clock,
        number: u64,
    ) -> Result<(), AllocError>
        ghost of: { Name }
        requires { of ≡ key.now }
        ensures ok { OnOk result (entities_of self.new ≡
            done key.now (updates.Facility update) clock number (entities_of self.old)) }
        ensures err { OnErr result (entities_of self.new ≡ entities_of self.old) }
    {
        let place = self.facilities.place(key);
        let was = self.facilities.value_at(place, Facility::new());
        let facility = done_to_facility(update, clock, number, was);
        self.facilities.put_at(key, place, facility)
    }

    // What so many units make of a storage that come into use.
    #[inline(never)]
    fn make_of_entered(&mut self, key: &Key, units: u64, clock: Clock) -> Result<(), AllocError>
        ghost of: { Name }
        requires { of ≡ key.now }
        ensures ok { OnOk result (entities_of self.new ≡ record (entities_of self.old) {
          storages = with_value self.old.storages key.now
              (entered units clock (store_at (entities_of self.old) key.now));
        }) }
        ensures err { OnErr result (entities_of self.new ≡ entities_of self.old) }
    {
        let place = self.storages.place(key);
        let mut storage = self.storages.value_at(place, Storage::new());
        storage.enter(units, clock);
        self.storages.put_at(key, place, storage)
    }

    // What so many units make of a storage that are given back, and those with which others are let in.
    #[inline(never)]
    fn make_of_left(
        &mut self,
        key: &Key,
        units: u64,
        grants: &[Option<u64>],
        clock: Clock,
    ) -> Result<(), AllocError>
        ghost of: { Name }
        requires { of ≡ key.now }
        ensures ok { OnOk result (entities_of self.new ≡ record (entities_of self.old) {
          storages = with_value self.old.storages key.now
              (all_entered grants.now clock (left units clock (store_at (entities_of self.old) key.now)));
        }) }
        ensures err { OnErr result (entities_of self.new ≡ entities_of self.old) }
    {
        let place = self.storages.place(key);
        let mut storage = self.storages.value_at(place, Storage::new());
        storage.leave(units, clock);
        enter_all(&mut storage, grants, clock);
        self.storages.put_at(key, place, storage)
    }

    // What an update makes of a queue; who came to it is kept.
    #[inline(never)]
    fn make_of_queue(
        &mut self,
        key: &Key,
        update: QueueUpdate,
        clock: Clock,
        number: u64,
    ) -> Result<(), AllocError>
        ghost of: { Name }
        requires { of ≡ key.now }
        ensures ok { OnOk result (entities_of self.new ≡
            done key.now (updates.Queue update) clock number (entities_of self.old)) }
        ensures err { OnErr result (entities_of self.new ≡ entities_of self.old) }
    {
        let place = self.queues.place(key);
        let was = self.queues.value_at(place, Queue::new());
        let queue = done_to_queue(update, clock, was);
        match update {
            QueueUpdate::Queue { .. } => {
                let coming = self.queue_arrivals.reserve(key)?;
                self.queues.put_at(key, place, queue)?;
                self.queue_arrivals.add(number, coming);
                Ok(())
            }
            QueueUpdate::Depart { .. } => self.queues.put_at(key, place, queue),
        }
    }

    /// Each facility, queue and storage is counted anew from a clock on, and each table loses its values. Where memory is
    /// refused, nothing changes.
    pub fn count_anew(&mut self, alloc: Global, clock: Clock) -> Result<(), AllocError>
        ensures ok { OnOk result (entities_of self.new ≡ entities_anew clock (entities_of self.old)) }
        ensures err { OnErr result (entities_of self.new ≡ entities_of self.old) }
    {
        let facilities = self.facilities.anew(alloc, clock)?;
        let queues = self.queues.anew(alloc, clock)?;
        let storages = self.storages.anew(alloc, clock)?;
        let tables = self.tables.anew()?;
        self.facilities = facilities;
        self.queues = queues;
        self.storages = storages;
        self.tables = tables;
        Ok(())
    }

    /// The clock goes on from one time to another. Where they differ, who came to which queue is forgotten.
    #[inline(always)]
    pub fn go_on(&mut self, before: Clock, now: Clock)
        ensures { entities_of self.new ≡ later before now (entities_of self.old) }
    {
        if self.queue_arrivals.is_empty() {
            return;
        }
        if before.time() != now.time() {
            self.queue_arrivals.clear();
        }
    }

    /// Copies share the entities from now on.
    pub fn share(&mut self) -> Result<(), AllocError>
        ensures { entities_of self.new ≡ entities_of self.old }
    {
        self.facilities.share()?;
        self.queues.share()?;
        self.storages.share()?;
        self.savevalues.share()?;
        self.switches.share()?;
        self.tables.share()?;
        self.queue_arrivals.share()
    }

    /// A copy. Its parts are copied in two groups: what is proved of a function grows fast with the exits at which it
    /// lets go of copies.
    pub fn copy(&self) -> Result<Entities, AllocError>
        ensures { IfOk result (λ e. entities_of e ≡ entities_of self.now) }
    {
        let used = self.copy_used()?;
        let set = self.copy_set()?;
        Ok(Entities {
            facilities: used.facilities,
            queues: used.queues,
            storages: used.storages,
            savevalues: set.savevalues,
            switches: set.switches,
            tables: set.tables,
            queue_arrivals: set.queue_arrivals,
        })
    }

    fn copy_used(&self) -> Result<Used, AllocError>
        ensures facilities { IfOk result (λ u. u.facilities ≡ self.now.facilities) }
        ensures queues { IfOk result (λ u. u.queues ≡ self.now.queues) }
        ensures storages { IfOk result (λ u. u.storages ≡ self.now.storages) }
    {
        let facilities = self.facilities.copy()?;
        let queues = self.queues.copy()?;
        Ok(Used {
            facilities,
            queues,
            storages: self.storages.copy()?,
        })
    }

    fn copy_set(&self) -> Result<Set, AllocError>
        ensures savevalues { IfOk result (λ s. s.savevalues ≡ self.now.savevalues) }
        ensures switches { IfOk result (λ s. s.switches ≡ self.now.switches) }
        ensures tables { IfOk result (λ s. s.tables ≡ self.now.tables) }
        ensures queue_arrivals { IfOk result (λ s. s.queue_arrivals.queue_arrivals ≡ self.now.queue_arrivals.queue_arrivals) }
    {
        let savevalues = self.savevalues.copy()?;
        let switches = self.switches.copy()?;
        let tables = self.tables.copy()?;
        Ok(Set {
            savevalues,
            switches,
            tables,
            queue_arrivals: self.queue_arrivals.copy()?,
        })
    }
}

// What is in use, or stood in.
#[derive(Drop)]
struct Used {
    facilities: ByKey<Facility>,
    queues: ByKey<Queue>,
    storages: ByKey<Storage>,
}

// What blocks set and tabulated, and who came.
#[derive(Drop)]
struct Set {
    savevalues: ByKey<Val>,
    switches: ByKey<bool>,
    tables: Tables,
    queue_arrivals: QueueArrivals,
}
