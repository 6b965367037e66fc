ghost use Rattle.std.specs.Prelude.{◌≡◌, ◌<◌, ◌≤◌, ◌++◌, ◌∷◌, [], Some, IfOk, length, take, drop, insert, remove, slice_get, slice_set};

use std::alloc::{AllocError, Global};
use std::marker::Model;

// So many items a buffer holds at the most.
pub const CHUNK: usize = 64;

// Up to 64 items, with room for 64.
#[derive(Drop)]
pub struct Buffer<T: Copy> {
    items: Vec<T>,
}

impl<T: Copy> Model for Buffer<T> {
    ghost use Rattle.std.specs.Prelude.{◌≤◌, List, length, vec_capacity};

    ghost Value = { List T };

    ghost view = { λ b. b.items.items };

    // The 64 here and below is CHUNK.
    ghost invariant = { λ b. (length b.items.items ≤ 64) × (64 ≤ vec_capacity b.items) };
}

impl<T: Copy> Buffer<T> {
    // An empty one.
    pub fn new(alloc: Global) -> Result<Buffer<T>, AllocError>
        ensures { IfOk result (λ b. b ≡ []) }
    {
        Ok(Buffer {
            items: Vec::with_capacity(alloc, CHUNK)?,
        })
    }

    // How many items there are.
    #[inline(always)]
    pub fn len(&self) -> usize
        ensures len { result ≡ length self.now }
        ensures bound { result ≤ 64 }
    {
        self.items.len()
    }

    // The item at an index.
    #[inline(always)]
    pub fn at(&self, index: usize) -> &T
        requires { index < length self.now }
        ensures { slice_get self.now index ≡ Some result.now }
    {
        &self.items[index]
    }

    // The items from an index on.
    pub fn from(&self, index: usize) -> &[T]
        requires { index ≤ length self.now }
        ensures { result.now ≡ drop index self.now }
    {
        let (_, tail) = self.items.as_slice().split_at(index);
        tail
    }

    // One more at the end.
    #[inline(always)]
    pub fn push(&mut self, x: T)
        requires { length self.old < 64 }
        ensures { self.new ≡ self.old ++ x ∷ [] }
    {
        self.items.push_reserved(x);
    }

    // One more in front of the one at an index.
    pub fn insert(&mut self, index: usize, x: T)
        requires room { length self.old < 64 }
        requires within { index ≤ length self.old }
        ensures { self.new ≡ insert self.old index x }
    {
        match self.items.insert(index, x) {
            Ok(()) => (),
            Err(_) => unreachable!(),
        }
    }

    // The one at an index goes.
    pub fn remove(&mut self, index: usize) -> T
        requires { index < length self.old }
        ensures value { slice_get self.old index ≡ Some result }
        ensures items { self.new ≡ remove self.old index }
    {
        self.items.remove(index)
    }

    // Another item at an index.
    pub fn set(&mut self, index: usize, x: T)
        requires { index < length self.old }
        ensures { self.new ≡ slice_set self.old index x }
    {
        self.items[index] = x;
    }

    // All items go.
    pub fn clear(&mut self)
        ensures { self.new ≡ [] }
    {
        self.items.clear();
    }

    // The items of another in place of its own.
    pub fn fill(&mut self, from: &Buffer<T>)
        ensures { self.new ≡ from.now }
    {
        let items = from.items.as_slice();
        self.items.clear();
        match self.items.extend_from_slice(items) {
            Ok(()) => (),
            Err(_) => unreachable!(),
        }
    }

    // What stands from an index on goes to another buffer, in place of what was there.
    pub fn split(&mut self, at: usize, back: &mut Buffer<T>)
        requires { at ≤ length self.old }
        ensures front { self.new ≡ take at self.old }
        ensures back { back.new ≡ drop at self.old }
    {
        let (_, tail) = self.items.as_slice().split_at(at);
        back.items.clear();
        match back.items.extend_from_slice(tail) {
            Ok(()) => (),
            Err(_) => unreachable!(),
        }
        self.items.truncate(at);
    }
}
