ghost use Rattle.std.specs.Prelude.{◌≡◌, ◌<◌, ◌≤◌, ◌^◌, [], Some, false, length, slice_get, IfSome, IfNone, IfOk, OnOk, IsTrue};
ghost use Rattle.std.specs.List.{list_any, IsDistinct};
ghost use Rattle.indexmap.specs.IndexSet.{insert_key, spare};
ghost use Rattle.gw_names.specs.Keys.{key_eq};

use gw_names::Key;
use indexmap::IndexSet;
use std::alloc::{AllocError, Global};

// How many slots there are.
const SLOTS: usize = 128;

// Keys in the order of coming, found by their marks, and else by their hash. A slot tells where the last of the keys
// with its marks lies, as far as a byte can: a key is looked for there first. Nothing else depends on it.
#[derive(Drop)]
pub struct KeyTable {
    pub set: IndexSet<Key>,
    slots: [u8; 128],
}

impl KeyTable {
    // No key.
    pub fn new(alloc: Global) -> KeyTable
        ensures { result.set.keys ≡ [] }
    {
        KeyTable {
            set: IndexSet::new(alloc),
            slots: [0; SLOTS],
        }
    }

    // Where a key lies, if it is there.
    #[inline(always)]
    pub fn place(&self, key: &Key) -> Option<usize>
        ensures there { IfSome result (λ i. slice_get self.now.set.keys i ≡ Some key.now) }
        ensures within { IfSome result (λ i. i < length self.now.set.keys) }
        ensures none { IfNone result (list_any (key_eq key.now) self.now.set.keys ≡ false) }
    {
        let index = usize::from(self.slots[slot_of(key)]);
        if is_at(&self.set, index, key) {
            return Some(index);
        }
        place_by_hash(&self.set, key)
    }

    // How many there are.
    #[inline(always)]
    pub fn len(&self) -> usize
        ensures len { result ≡ length self.now.set.keys }
        ensures bound { result < 2 ^ 63 }
    {
        self.set.len()
    }

    // The key at an index.
    #[inline(always)]
    pub fn at(&self, index: usize) -> &Key
        requires { index < length self.now.set.keys }
        ensures { slice_get self.now.set.keys index ≡ Some result.now }
    {
        &self.set[index]
    }

    // Where its memory comes from.
    pub fn allocator(&self) -> Global {
        *self.set.allocator()
    }

    // Makes room for one more key. Room that was there stays.
    pub fn reserve(&mut self) -> Result<(), AllocError>
        ensures ok { OnOk result (0 < spare self.new.set) }
        ensures keys { self.new.set.keys ≡ self.old.set.keys }
        ensures room { spare self.old.set ≤ spare self.new.set }
    {
        self.set.reserve(1)
    }

    // A key comes after the others, unless it is there.
    pub fn insert(&mut self, key: Key)
        requires { 0 < spare self.old.set }
        ensures keys { self.new.set.keys ≡ insert_key key_eq self.old.set.keys key }
        ensures distinct { IsDistinct key_eq self.new.set.keys }
    {
        let slot = slot_of(&key);
        let index = self.set.len();
        match self.set.insert(key) {
            Ok(_) => (),
            Err(_) => unreachable!(),
        }
        if index < 256 {
            self.slots[slot] = index as u8;
        }
    }

    // The same keys.
    pub fn copy(&self) -> Result<KeyTable, AllocError>
        ensures { IfOk result (λ t. t.set.keys ≡ self.now.set.keys) }
    {
        let set = self.set.clone()?;
        Ok(KeyTable {
            set,
            slots: self.slots,
        })
    }
}

// The slot of a key.
#[inline(always)]
fn slot_of(key: &Key) -> usize
    ensures { result < 128 }
{
    (key.mark() % 128) as usize
}

// Whether a key lies at an index.
#[inline(always)]
fn is_at(set: &IndexSet<Key>, index: usize, key: &Key) -> bool
    ensures { IsTrue result → slice_get set.now.keys index ≡ Some key.now }
{
    match set.get_index(index) {
        Some(other) => *key == *other,
        None => false,
    }
}

// Where a key lies that its slot does not tell, if it is there.
#[inline(never)]
fn place_by_hash(set: &IndexSet<Key>, key: &Key) -> Option<usize>
    ensures there { IfSome result (λ i. slice_get set.now.keys i ≡ Some key.now) }
    ensures within { IfSome result (λ i. i < length set.now.keys) }
    ensures none { IfNone result (list_any (key_eq key.now) set.now.keys ≡ false) }
{
    match set.get_full(key) {
        Some((index, _)) => Some(index),
        None => None,
    }
}
