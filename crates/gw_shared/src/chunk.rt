ghost use Rattle.std.specs.Prelude.{◌≡◌, ◌<◌, ◌≤◌, ◌+◌, ◌++◌, ◌∷◌, [], Some, IfOk, length, drop, insert, remove, slice_get, slice_set};
ghost use Rattle.gw_shared.specs.Lists.{chunk_items};

use crate::buffer::Buffer;
use std::alloc::{AllocError, Global};
use std::mem;
use std::sync::Arc;

// A part of a list. One that copies may share is not changed any more; the others are the list's own.
#[derive(Drop)]
pub enum Chunk<T: Copy> {
    // What stands here while a chunk is moved.
    Nothing,
    Shared(Arc<Box<Buffer<T>>>),
    Own(Box<Buffer<T>>),
}

impl<T: Copy> Chunk<T> {
    // How many items there are.
    #[inline(always)]
    pub fn len(&self) -> usize
        ensures len { result ≡ length (chunk_items self.now) }
        ensures bound { result ≤ 64 }
    {
        match self {
            Chunk::Nothing => 0,
            Chunk::Shared(shared) => shared.len(),
            Chunk::Own(own) => own.len(),
        }
    }

    // The item at an index.
    #[inline(always)]
    pub fn at(&self, index: usize) -> &T
        requires { index < length (chunk_items self.now) }
        ensures { slice_get (chunk_items self.now) index ≡ Some result.now }
    {
        match self {
            Chunk::Nothing => unreachable!(),
            Chunk::Shared(shared) => shared.at(index),
            Chunk::Own(own) => own.at(index),
        }
    }

    // The items from an index on.
    pub fn from(&self, index: usize) -> &[T]
        requires { index < length (chunk_items self.now) }
        ensures { result.now ≡ drop index (chunk_items self.now) }
    {
        match self {
            Chunk::Nothing => unreachable!(),
            Chunk::Shared(shared) => shared.from(index),
            Chunk::Own(own) => own.from(index),
        }
    }

    // Takes it for the list's own, copied to a spare buffer where it may be shared.
    #[inline(always)]
    fn take_own(&mut self, spare: &mut Vec<Box<Buffer<T>>>) -> Box<Buffer<T>>
        requires { 0 < length spare.old.items }
        ensures items { result.value ≡ chunk_items self.old }
        ensures spare { length spare.old.items ≤ length spare.new.items + 1 }
    {
        match mem::replace(self, Chunk::Nothing) {
            Chunk::Own(own) => own,
            Chunk::Shared(shared) => {
                let Some(mut own) = spare.pop() else {
                    unreachable!()
                };
                own.fill(&shared);
                own
            }
            Chunk::Nothing => {
                let Some(mut own) = spare.pop() else {
                    unreachable!()
                };
                own.clear();
                own
            }
        }
    }

    // One more at the end.
    #[inline(always)]
    pub fn push(&mut self, x: T, spare: &mut Vec<Box<Buffer<T>>>)
        requires spare { 0 < length spare.old.items }
        requires room { length (chunk_items self.old) < 64 }
        ensures items { chunk_items self.new ≡ chunk_items self.old ++ x ∷ [] }
        ensures spare { length spare.old.items ≤ length spare.new.items + 1 }
    {
        if let Chunk::Own(own) = self {
            own.push(x);
            return;
        }
        let mut own = self.take_own(spare);
        own.push(x);
        *self = Chunk::Own(own);
    }

    // One more in front of the one at an index.
    pub fn insert(&mut self, index: usize, x: T, spare: &mut Vec<Box<Buffer<T>>>)
        requires spare { 0 < length spare.old.items }
        requires room { length (chunk_items self.old) < 64 }
        requires within { index ≤ length (chunk_items self.old) }
        ensures items { chunk_items self.new ≡ insert (chunk_items self.old) index x }
        ensures spare { length spare.old.items ≤ length spare.new.items + 1 }
    {
        if let Chunk::Own(own) = self {
            own.insert(index, x);
            return;
        }
        let mut own = self.take_own(spare);
        own.insert(index, x);
        *self = Chunk::Own(own);
    }

    // The one at an index goes.
    pub fn remove(&mut self, index: usize, spare: &mut Vec<Box<Buffer<T>>>) -> T
        requires spare { 0 < length spare.old.items }
        requires within { index < length (chunk_items self.old) }
        ensures value { slice_get (chunk_items self.old) index ≡ Some result }
        ensures items { chunk_items self.new ≡ remove (chunk_items self.old) index }
        ensures spare { length spare.old.items ≤ length spare.new.items + 1 }
    {
        if let Chunk::Own(own) = self {
            return own.remove(index);
        }
        let mut own = self.take_own(spare);
        let x = own.remove(index);
        *self = Chunk::Own(own);
        x
    }

    // Another item at an index.
    pub fn set(&mut self, index: usize, x: T, spare: &mut Vec<Box<Buffer<T>>>)
        requires spare { 0 < length spare.old.items }
        requires within { index < length (chunk_items self.old) }
        ensures items { chunk_items self.new ≡ slice_set (chunk_items self.old) index x }
        ensures spare { length spare.old.items ≤ length spare.new.items + 1 }
    {
        if let Chunk::Own(own) = self {
            own.set(index, x);
            return;
        }
        let mut own = self.take_own(spare);
        own.set(index, x);
        *self = Chunk::Own(own);
    }

    // One more in front of the one at an index of a full chunk: what stands in the back half goes to another chunk.
    pub fn insert_splitting(
        &mut self,
        index: usize,
        x: T,
        spare: &mut Vec<Box<Buffer<T>>>,
    ) -> Chunk<T>
        requires spare { 2 ≤ length spare.old.items }
        requires full { 64 ≤ length (chunk_items self.old) }
        requires within { index ≤ length (chunk_items self.old) }
        ensures items { chunk_items self.new ++ chunk_items result ≡ insert (chunk_items self.old) index x }
        ensures spare { length spare.old.items ≤ length spare.new.items + 2 }
    {
        let mut own = self.take_own(spare);
        let Some(mut back) = spare.pop() else {
            unreachable!()
        };
        let half = own.len() / 2;
        own.split(half, &mut back);
        if index <= half {
            own.insert(index, x);
        } else {
            back.insert(index - half, x);
        }
        *self = Chunk::Own(own);
        Chunk::Own(back)
    }

    // From now on copies share it.
    pub fn share(&mut self, alloc: Global) -> Result<(), AllocError>
        ensures { chunk_items self.new ≡ chunk_items self.old }
    {
        match mem::replace(self, Chunk::Nothing) {
            Chunk::Nothing => Ok(()),
            Chunk::Shared(shared) => {
                *self = Chunk::Shared(shared);
                Ok(())
            }
            Chunk::Own(own) => match Arc::new(alloc, own) {
                Ok(shared) => {
                    *self = Chunk::Shared(shared);
                    Ok(())
                }
                Err(failed) => {
                    *self = Chunk::Own(failed.value);
                    Err(AllocError)
                }
            },
        }
    }

    // An equal chunk: the same one where it is shared.
    pub fn copy(&self, alloc: Global) -> Result<Chunk<T>, AllocError>
        ensures { IfOk result (λ c. chunk_items c ≡ chunk_items self.now) }
    {
        match self {
            Chunk::Nothing => Ok(Chunk::Nothing),
            Chunk::Shared(shared) => Ok(Chunk::Shared(Arc::try_clone(shared)?)),
            Chunk::Own(own) => {
                let mut copy = Buffer::new(alloc)?;
                copy.fill(own);
                Ok(Chunk::Own(Box::new(alloc, copy)?))
            }
        }
    }
}
