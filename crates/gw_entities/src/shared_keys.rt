ghost use Rattle.std.specs.Prelude.{◌≡◌, ◌<◌, ◌≤◌, ◌^◌, [], Some, false, length, slice_get, IfSome, IfNone, IfOk, OnOk};
ghost use Rattle.std.specs.List.{list_any, IsDistinct};
ghost use Rattle.indexmap.specs.IndexSet.{insert_key};
ghost use Rattle.gw_names.specs.Keys.{key_eq};

use crate::key_table::KeyTable;
use gw_names::Key;
use std::alloc::{AllocError, Global};
use std::marker::Model;
use std::mem;
use std::sync::Arc;

// Keys in the order of coming, found by their hash. Copies share them, until one of them takes a further key.
#[derive(Drop)]
pub struct SharedKeys {
    form: Form,
}

// How the keys lie in memory. Those that copies may share are not changed any more.
#[derive(Drop)]
pub enum Form {
    // No keys: this takes the least, and stands here while keys are moved.
    Nothing(Global),
    Shared(Arc<Box<KeyTable>>),
    Own(Box<KeyTable>),
}

impl Model for SharedKeys {
    ghost use Rattle.gw_entities.specs.KeySets.{KeyList, keys_in, room_in};

    ghost Value = { KeyList };

    ghost view = { λ s. record { keys = keys_in s.form; room = room_in s.form } };
}

impl SharedKeys {
    // No key.
    pub fn new(alloc: Global) -> SharedKeys
        ensures { result.keys ≡ [] }
    {
        SharedKeys {
            form: Form::Nothing(alloc),
        }
    }

    // Those of a table.
    pub fn of(table: Box<KeyTable>) -> SharedKeys
        ensures { result.keys ≡ table.value.set.keys }
    {
        SharedKeys {
            form: Form::Own(table),
        }
    }

    // Where a key lies, if it is there.
    #[inline(always)]
    pub fn place(&self, key: &Key) -> Option<usize>
        ensures there { IfSome result (λ i. slice_get self.now.keys i ≡ Some key.now) }
        ensures within { IfSome result (λ i. i < length self.now.keys) }
        ensures none { IfNone result (list_any (key_eq key.now) self.now.keys ≡ false) }
    {
        match &self.form {
            Form::Nothing(_) => None,
            Form::Shared(shared) => shared.place(key),
            Form::Own(own) => own.place(key),
        }
    }

    // How many there are.
    #[inline(always)]
    pub fn len(&self) -> usize
        ensures len { result ≡ length self.now.keys }
        ensures bound { result < 2 ^ 63 }
    {
        match &self.form {
            Form::Nothing(_) => 0,
            Form::Shared(shared) => shared.len(),
            Form::Own(own) => own.len(),
        }
    }

    // The key at an index.
    #[inline(always)]
    pub fn at(&self, index: usize) -> &Key
        requires { index < length self.now.keys }
        ensures { slice_get self.now.keys index ≡ Some result.now }
    {
        match &self.form {
            Form::Nothing(_) => unreachable!(),
            Form::Shared(shared) => shared.at(index),
            Form::Own(own) => own.at(index),
        }
    }

    // Where its memory comes from.
    pub fn allocator(&self) -> Global {
        match &self.form {
            Form::Nothing(alloc) => *alloc,
            Form::Shared(shared) => shared.allocator(),
            Form::Own(own) => own.allocator(),
        }
    }

    // A table of the same keys that nobody shares.
    pub fn table(&self) -> Result<KeyTable, AllocError>
        ensures { IfOk result (λ t. t.set.keys ≡ self.now.keys) }
    {
        match &self.form {
            Form::Nothing(alloc) => Ok(KeyTable::new(*alloc)),
            Form::Shared(shared) => shared.copy(),
            Form::Own(own) => own.copy(),
        }
    }

    // Makes room for one more key. Room that was there stays.
    #[inline(always)]
    pub fn reserve(&mut self) -> Result<(), AllocError>
        ensures ok { OnOk result (0 < self.new.room) }
        ensures keys { self.new.keys ≡ self.old.keys }
        ensures room { self.old.room ≤ self.new.room }
    {
        if let Form::Own(own) = &mut self.form {
            return own.reserve();
        }
        let mut table = self.table()?;
        table.reserve()?;
        let own = Box::new(self.allocator(), table)?;
        self.form = Form::Own(own);
        Ok(())
    }

    // A key comes after the others, unless it is there.
    pub fn insert(&mut self, key: Key)
        requires { 0 < self.old.room }
        ensures keys { self.new.keys ≡ insert_key key_eq self.old.keys key }
        ensures distinct { IsDistinct key_eq self.new.keys }
    {
        let Form::Own(own) = &mut self.form else {
            unreachable!()
        };
        own.insert(key);
    }

    // Copies share the keys from now on.
    pub fn share(&mut self) -> Result<(), AllocError>
        ensures { self.new.keys ≡ self.old.keys }
    {
        let alloc = self.allocator();
        match mem::replace(&mut self.form, Form::Nothing(alloc)) {
            Form::Nothing(_) => Ok(()),
            Form::Shared(shared) => {
                self.form = Form::Shared(shared);
                Ok(())
            }
            Form::Own(own) => match Arc::new(alloc, own) {
                Ok(shared) => {
                    self.form = Form::Shared(shared);
                    Ok(())
                }
                Err(failed) => {
                    self.form = Form::Own(failed.value);
                    Err(AllocError)
                }
            },
        }
    }

    // The same keys.
    pub fn copy(&self) -> Result<SharedKeys, AllocError>
        ensures { IfOk result (λ s. s.keys ≡ self.now.keys) }
    {
        let form = match &self.form {
            Form::Nothing(alloc) => Form::Nothing(*alloc),
            Form::Shared(shared) => Form::Shared(Arc::try_clone(shared)?),
            Form::Own(own) => {
                let table = own.copy()?;
                Form::Own(Box::new(own.allocator(), table)?)
            }
        };
        Ok(SharedKeys { form })
    }
}
