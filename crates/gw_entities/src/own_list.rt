ghost use Rattle.std.specs.Prelude.{◌≡◌, suc, ◌<◌, ◌≤◌, ◌+◌, ◌++◌, [], length, take, drop, Some, slice_get};
ghost use Rattle.std.specs.Prelude.{IfOk, IfErr, OnOk, OnErr, IsTrue, ◌==◌};
ghost use Rattle.gw_names.specs.declared.key.Key.{Key};
ghost use Rattle.gw_entities.specs.Owned.{own_of, with_own, without_own, all_of, said_by, AreRising, AreKnown, IsCut, StandsAt, EndsAt};

use crate::key_set::KeySet;
use gw_names::Key;
use gw_shared::SharedList;
use std::alloc::{AllocError, Global};
use std::cell::Cell;
use std::marker::Model;

// So many keys stay where all entries are forgotten.
const FEW: usize = 32;

// A list of at most so many entries is searched by halves at once.
const SHORT: usize = 4;

/// What transactions have of their own, by key: in order of the numbers of their transactions, and of each transaction
/// in order of coming. A transaction is found by halves. Copies share what did not change.
#[derive(Drop)]
pub struct OwnList<V: Copy> {
    keys: KeySet,
    items: SharedList<Item<V>>,
    // Where the entries of the transaction that was looked for last began. The next search starts there; no answer depends
    // on it.
    last: Cell<usize>,
}

// Something of a transaction, by the place of its key.
#[derive(Clone, Copy)]
pub struct Item<V: Copy> {
    pub number: u64,
    pub key: usize,
    pub value: V,
}

impl<V: Copy> Model for OwnList<V> {
    ghost use Rattle.std.specs.Prelude.{length, map};
    ghost use Rattle.std.specs.List.{IsDistinct};
    ghost use Rattle.gw_names.specs.Keys.{key_eq};
    ghost use Rattle.gw_entities.specs.Owned.{Own, entry_of, AreRising, AreKnown};

    ghost Value = { Own V };

    ghost view = { λ o. record {
      entries = map (entry_of o.keys.keys) o.items.items;
      keys = o.keys.keys;
      room = o.items.room;
    } };

    ghost invariant = { λ o. AreRising (map (entry_of o.keys.keys) o.items.items)
        × AreKnown (length o.keys.keys) o.items.items × IsDistinct key_eq o.keys.keys };
}

impl<V: Copy> OwnList<V> {
    // Nobody has anything.
    pub fn new(alloc: Global) -> OwnList<V>
        ensures { result.entries ≡ [] }
    {
        OwnList {
            keys: KeySet::new(alloc),
            items: SharedList::new(alloc),
            last: Cell::new(0),
        }
    }

    // Whether nobody has anything.
    #[inline(always)]
    pub fn is_empty(&self) -> bool
        ensures { result ≡ (length self.now.entries == 0) }
    {
        self.items.is_empty()
    }

    // What a transaction has by a key.
    pub fn get(&self, number: u64, key: &Key) -> Option<V>
        ensures { result ≡ own_of self.now.entries number key.now }
    {
        let key = self.keys.place(key)?;
        match self.find(number, key) {
            Ok(index) => Some(self.items.at(index).value),
            Err(_) => None,
        }
    }

    // All that a transaction has, in order of coming.
    pub fn all(&self, alloc: Global, number: u64) -> Result<Vec<Item<V>>, AllocError>
        ensures said { IfOk result (λ is. said_by self.now.keys is.items ≡ all_of number self.now.entries) }
        ensures known { IfOk result (λ is. AreKnown (length self.now.keys) is.items) }
    {
        self.all_from(alloc, number, self.first(number))
    }

    fn all_from(&self, alloc: Global, number: u64, first: usize) -> Result<Vec<Item<V>>, AllocError>
        requires { IsCut number self.now.entries first }
        ensures said { IfOk result (λ is. said_by self.now.keys is.items ≡ all_of number self.now.entries) }
        ensures known { IfOk result (λ is. AreKnown (length self.now.keys) is.items) }
    {
        let mut all = Vec::new(alloc);
        for index in first..self.items.len() {
            let item = *self.items.at(index);
            if item.number != number {
                return Ok(all);
            }
            all.push(item)?;
        }
        Ok(all)
    }

    // Where that stands by the key at a place, or where it would come.
    fn find(&self, number: u64, key: usize) -> Result<usize, usize>
        requires { key < length self.now.keys }
        ensures stands { IfOk result (λ i. (k : Key) → slice_get self.now.keys key ≡ Some k →
            StandsAt number k self.now.entries i) }
        ensures within { IfOk result (λ i. i < length self.now.entries) }
        ensures ends { IfErr result (λ i. (k : Key) → slice_get self.now.keys key ≡ Some k →
            EndsAt number k self.now.entries i) }
        ensures last { IfErr result (λ i. i ≤ length self.now.entries) }
    {
        let first = self.first(number);
        for index in first..self.items.len() {
            let item = self.items.at(index);
            if item.number != number {
                return Err(index);
            }
            if item.key == key {
                return Ok(index);
            }
        }
        Err(self.items.len())
    }

    // Where those of transactions with a number from this on begin.
    #[inline(always)]
    fn first(&self, number: u64) -> usize
        ensures { IsCut number self.now.entries result }
    {
        if self.items.len() <= SHORT {
            return self.halved(number);
        }
        let last = self.last.get();
        if self.begins_at(number, last) {
            return last;
        }
        let first = self.halved(number);
        self.last.set(first);
        first
    }

    // Whether the entries of a transaction begin at an index.
    #[inline(always)]
    fn begins_at(&self, number: u64, index: usize) -> bool
        ensures { IsTrue result → IsCut number self.now.entries index }
    {
        if index >= self.items.len() || self.items.at(index).number != number {
            return false;
        }
        if index == 0 {
            return true;
        }
        let before = self.items.at(index - 1);
        before.number < number
    }

    // Where those of transactions with a number from this on begin, searched by halves.
    #[inline(never)]
    fn halved(&self, number: u64) -> usize
        ensures { IsCut number self.now.entries result }
    {
        let mut low = 0;
        let mut high = self.items.len();
        while low < high {
            let middle = low + (high - low) / 2;
            if self.items.at(middle).number < number {
                low = middle + 1;
            } else {
                high = middle;
            }
        }
        low
    }

    // Where those of a transaction end that begin at an index.
    fn end(&self, number: u64, first: usize) -> usize
        requires { IsCut number self.now.entries first }
        ensures cut { IsCut (suc number) self.now.entries result }
        ensures behind { first ≤ result }
    {
        for index in first..self.items.len() {
            if self.items.at(index).number != number {
                return index;
            }
        }
        self.items.len()
    }

    // Makes room for one more, and returns the place of its key.
    pub fn reserve(&mut self, key: &Key) -> Result<usize, AllocError>
        ensures room { OnOk result (0 < self.new.room) }
        ensures key { IfOk result (λ i. slice_get self.new.keys i ≡ Some key.now) }
        ensures within { IfOk result (λ i. i < length self.new.keys) }
        ensures entries { self.new.entries ≡ self.old.entries }
    {
        self.items.reserve(1)?;
        let place = self.keys.add(key)?;
        Ok(place)
    }

    // Makes room for so many more by keys that are there.
    pub(crate) fn reserve_known(&mut self, count: usize) -> Result<(), AllocError>
        ensures room { OnOk result (count ≤ self.new.room) }
        ensures keys { self.new.keys ≡ self.old.keys }
        ensures entries { self.new.entries ≡ self.old.entries }
    {
        self.items.reserve(count)
    }

    // Sets what a transaction has by the key at a place.
    pub fn put(&mut self, number: u64, key: usize, value: V)
        requires room { 0 < self.old.room }
        requires key { key < length self.old.keys }
        ensures room { self.old.room ≤ self.new.room + 1 }
        ensures entries { (k : Key) → slice_get self.old.keys key ≡ Some k →
            self.new.entries ≡ with_own self.old.entries number k value }
        ensures keys { self.new.keys ≡ self.old.keys }
    {
        let item = Item { number, key, value };
        match self.find(number, key) {
            Ok(index) => self.items.set(index, item),
            Err(index) => self.items.insert(index, item),
        }
    }

    // Forgets what a transaction has, or nothing where memory is refused.
    pub fn forget(&mut self, number: u64) -> Result<(), AllocError>
        ensures ok { OnOk result (self.new.entries ≡ without_own self.old.entries number) }
        ensures err { OnErr result (self.new.entries ≡ self.old.entries) }
    {
        let first = self.first(number);
        let end = self.end(number, first);
        if first < end {
            self.items.reserve(end - first)?;
            take_out(&mut self.items, first, end - first);
        }
        Ok(())
    }

    // Forgets all, the keys too where there are many.
    pub fn clear(&mut self)
        ensures { self.new.entries ≡ [] }
    {
        self.items.clear();
        if self.keys.len() > FEW {
            self.keys = KeySet::new(self.keys.allocator());
        }
    }

    // Copies share all from now on.
    pub fn share(&mut self) -> Result<(), AllocError>
        ensures { self.new.entries ≡ self.old.entries }
    {
        self.keys.share()?;
        self.items.share()
    }

    // The same.
    pub fn copy(&self) -> Result<OwnList<V>, AllocError>
        ensures { IfOk result (λ o. o.entries ≡ self.now.entries) }
    {
        let keys = self.keys.copy()?;
        Ok(OwnList {
            keys,
            items: self.items.copy()?,
            last: Cell::new(self.last.get()),
        })
    }
}

// Takes so many items out from an index on.
fn take_out<V: Copy>(items: &mut SharedList<Item<V>>, first: usize, count: usize)
    requires room { count ≤ items.old.room }
    requires within { first + count ≤ length items.old.items }
    ensures { items.new.items ≡ take first items.old.items ++ drop (first + count) items.old.items }
{
    for _index in 0..count {
        // The first one goes without a copy of what is shared.
        if first == 0 {
            items.pop_front();
        } else {
            items.remove(first);
        }
    }
}
