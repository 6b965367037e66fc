ghost use Rattle.std.specs.Prelude.{◌≡◌, ◌<◌, ◌≤◌, ◌^◌, [], Some, false, length, slice_get, IfSome, IfNone, IfOk, OnOk, OnErr};
ghost use Rattle.std.specs.List.{list_any, IsDistinct};
ghost use Rattle.indexmap.specs.IndexSet.{insert_key};
ghost use Rattle.gw_names.specs.Keys.{key_eq};

use crate::key_table::KeyTable;
use crate::shared_keys::SharedKeys;
use gw_names::Key;
use std::alloc::{AllocError, Global};
use std::marker::Model;

// Where more than one of so many keys are recent, all are settled.
const PART: usize = 8;

// How many keys there may be at the most, 2^63 - 1.
const LIMIT: usize = 9_223_372_036_854_775_807;

/// Keys in the order of coming, none of them twice, found by their hash. Copies share them: a further key copies those
/// that came last alone, and once these are more than an eighth, the next `share` copies all.
#[derive(Drop)]
pub struct KeySet {
    // Those that copies share for long: none comes to them.
    settled: SharedKeys,
    // Those that came after the settled ones.
    recent: SharedKeys,
}

impl Model for KeySet {
    ghost use Rattle.std.specs.Prelude.{◌++◌, ◌-◌, ◌<◌, ◌^◌, length, min};
    ghost use Rattle.std.specs.List.{IsDistinct};
    ghost use Rattle.gw_names.specs.Keys.{key_eq};
    ghost use Rattle.gw_entities.specs.KeySets.{KeyList};

    ghost Value = { KeyList };

    ghost view = { λ s. record {
      keys = s.settled.keys ++ s.recent.keys;
      room = min s.recent.room (9223372036854775807 - length (s.settled.keys ++ s.recent.keys));
    } };

    ghost invariant = { λ s. IsDistinct key_eq (s.settled.keys ++ s.recent.keys)
        × (length (s.settled.keys ++ s.recent.keys) < 2 ^ 63) };
}

impl KeySet {
    /// No key.
    pub fn new(alloc: Global) -> KeySet
        ensures { result.keys ≡ [] }
    {
        KeySet {
            settled: SharedKeys::new(alloc),
            recent: SharedKeys::new(alloc),
        }
    }

    /// Where a key lies, if it is there.
    #[inline(never)]
    pub fn place(&self, key: &Key) -> Option<usize>
        ensures there { IfSome result (λ i. slice_get self.now.keys i ≡ Some key.now) }
        ensures within { IfSome result (λ i. i < length self.now.keys) }
        ensures none { IfNone result (list_any (key_eq key.now) self.now.keys ≡ false) }
    {
        if let Some(index) = self.settled.place(key) {
            return Some(index);
        }
        match self.recent.place(key) {
            Some(index) => Some(self.settled.len() + index),
            None => None,
        }
    }

    /// How many there are.
    #[inline(always)]
    pub fn len(&self) -> usize
        ensures len { result ≡ length self.now.keys }
        ensures bound { result < 2 ^ 63 }
        ensures distinct { IsDistinct key_eq self.now.keys }
    {
        self.settled.len() + self.recent.len()
    }

    /// The key at an index.
    #[inline(always)]
    pub fn at(&self, index: usize) -> &Key
        requires { index < length self.now.keys }
        ensures { slice_get self.now.keys index ≡ Some result.now }
    {
        let settled = self.settled.len();
        if index < settled {
            self.settled.at(index)
        } else {
            self.recent.at(index - settled)
        }
    }

    /// Makes room for one more key. Room that was there stays.
    #[inline(always)]
    pub fn reserve(&mut self) -> Result<(), AllocError>
        ensures ok { OnOk result (0 < self.new.room) }
        ensures keys { self.new.keys ≡ self.old.keys }
        ensures room { self.old.room ≤ self.new.room }
    {
        if self.len() == LIMIT {
            return Err(AllocError);
        }
        self.recent.reserve()
    }

    /// A key comes after the others, unless it is there.
    pub fn insert(&mut self, key: Key)
        requires { 0 < self.old.room }
        ensures keys { self.new.keys ≡ insert_key key_eq self.old.keys key }
        ensures distinct { IsDistinct key_eq self.new.keys }
    {
        match self.settled.place(&key) {
            Some(_) => (),
            None => self.recent.insert(key),
        }
    }

    /// The place of a key, which comes after the others where it is not there. Where memory is refused, none comes.
    pub fn add(&mut self, key: &Key) -> Result<usize, AllocError>
        ensures there { IfOk result (λ i. slice_get self.new.keys i ≡ Some key.now) }
        ensures within { IfOk result (λ i. i < length self.new.keys) }
        ensures keys { OnOk result (self.new.keys ≡ insert_key key_eq self.old.keys key.now) }
        ensures err { OnErr result (self.new.keys ≡ self.old.keys) }
    {
        match self.place(key) {
            Some(index) => Ok(index),
            None => self.push(key),
        }
    }

    // A key that is not there comes after the others.
    #[cold]
    fn push(&mut self, key: &Key) -> Result<usize, AllocError>
        requires { list_any (key_eq key.now) self.old.keys ≡ false }
        ensures index { IfOk result (λ i. i ≡ length self.old.keys) }
        ensures keys { OnOk result (self.new.keys ≡ insert_key key_eq self.old.keys key.now) }
        ensures err { OnErr result (self.new.keys ≡ self.old.keys) }
    {
        let own = key.clone()?;
        self.reserve()?;
        let index = self.len();
        self.insert(own);
        Ok(index)
    }

    /// Copies share the keys from now on.
    pub fn share(&mut self) -> Result<(), AllocError>
        ensures { self.new.keys ≡ self.old.keys }
    {
        if self.recent.len() > self.settled.len() / PART {
            self.settle()?;
        }
        self.settled.share()?;
        self.recent.share()
    }

    // Where its memory comes from.
    pub(crate) fn allocator(&self) -> Global {
        self.recent.allocator()
    }

    // All keys are settled.
    #[cold]
    fn settle(&mut self) -> Result<(), AllocError>
        ensures { self.new.keys ≡ self.old.keys }
    {
        let alloc = self.allocator();
        let all = Box::new(alloc, self.all()?)?;
        self.settled = SharedKeys::of(all);
        self.recent = SharedKeys::new(alloc);
        Ok(())
    }

    // All keys in one table.
    fn all(&self) -> Result<KeyTable, AllocError>
        ensures { IfOk result (λ t. t.set.keys ≡ self.now.keys) }
    {
        let mut all = self.settled.table()?;
        for index in 0..self.recent.len() {
            let key = self.recent.at(index).clone()?;
            all.reserve()?;
            all.insert(key);
        }
        Ok(all)
    }

    /// The same keys.
    pub fn copy(&self) -> Result<KeySet, AllocError>
        ensures { IfOk result (λ s. s.keys ≡ self.now.keys) }
    {
        let settled = self.settled.copy()?;
        Ok(KeySet {
            settled,
            recent: self.recent.copy()?,
        })
    }
}
