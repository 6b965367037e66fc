ghost use Rattle.std.specs.Prelude.{◌≡◌, ◌==◌, ◌<◌, ◌≤◌, ◌+◌, ◌-◌, ◌^◌, ◌++◌, ◌∷◌, [], Some, IfOk, OnOk, OnErr, IfNone, length, drop, insert, remove, slice_get, slice_set, option_to_list};
ghost use Rattle.gw_shared.specs.Lists.{joined};
ghost use Rattle.gw_shared.specs.Runs.{IsRun};

use crate::buffer::Buffer;
use crate::chunk::Chunk;
use crate::edits::{
    add_spare, copies, drop_gone, full_left, insert_in, one_more_full, push_in, remove_in, set_in,
    share_all,
};
use crate::place::find;
use std::alloc::{AllocError, Global};
use std::collections::VecDeque;
use std::marker::Model;

// How many items there may be at the most, 2^63 - 1.
const LIMIT: usize = 9_223_372_036_854_775_807;

// A list in chunks that its copies share: a copy takes the time and the memory of the number of chunks. A chunk is
// copied before it is changed for the first time after that.
#[derive(Drop)]
pub struct LongList<T: Copy> {
    chunks: VecDeque<Chunk<T>>,
    // So many chunks in front are full: most, since only an insert or a removal before the end leaves others.
    full: usize,
    // How many items are in the chunks, and so many of them in front are gone.
    total: usize,
    gone: usize,
    // Where what is changed next goes: two for each item that there is room for.
    spare: Vec<Box<Buffer<T>>>,
}

impl<T: Copy> Model for LongList<T> {
    ghost use Rattle.std.specs.Prelude.{◌≡◌, ◌≤◌, ◌<◌, ◌^◌, ◌-◌, ◌/◌, List, length, drop, min};
    ghost use Rattle.std.specs.VecDeque.{deque_capacity};
    ghost use Rattle.gw_shared.specs.Lists.{Roomy, joined, AreFull};

    ghost Value = { Roomy T };

    ghost view = { λ l. record {
      items = drop l.gone (joined l.chunks.items);
      room = min (length l.spare.items / 2)
          (min (deque_capacity l.chunks - length l.chunks.items) (9223372036854775807 - l.total));
    } };

    ghost invariant = { λ l. (l.total ≡ length (joined l.chunks.items)) × (l.gone ≤ l.total) × (l.total < 2 ^ 63)
        × AreFull l.full l.chunks.items };
}

impl<T: Copy> LongList<T> {
    // An empty list.
    pub fn new(alloc: Global) -> LongList<T>
        ensures { result.items ≡ [] }
    {
        LongList {
            chunks: VecDeque::new(alloc),
            full: 0,
            total: 0,
            gone: 0,
            spare: Vec::new(alloc),
        }
    }

    // How many items there are.
    #[inline(always)]
    pub fn len(&self) -> usize
        ensures len { result ≡ length self.now.items }
        ensures bound { result < 2 ^ 63 }
    {
        self.total - self.gone
    }

    // For how many changes there is room.
    pub fn room(&self) -> usize
        ensures { result ≡ self.now.room }
    {
        let chunks = self.chunks.capacity() - self.chunks.len();
        (self.spare.len() / 2).min(chunks.min(LIMIT - self.total))
    }

    // The item at an index.
    #[inline(always)]
    pub fn at(&self, index: usize) -> &T
        requires { index < length self.now.items }
        ensures { slice_get self.now.items index ≡ Some result.now }
    {
        let place = find(&self.chunks, self.full, self.total, self.gone + index);
        self.chunks[place.chunk].at(place.offset)
    }

    // The items from an index on that stand in one chunk.
    pub fn run(&self, index: usize) -> &[T]
        requires { index < length self.now.items }
        ensures some { 0 < length result.now }
        ensures run { IsRun self.now.items index result.now }
    {
        let place = find(&self.chunks, self.full, self.total, self.gone + index);
        self.chunks[place.chunk].from(place.offset)
    }

    // Where its memory comes from.
    pub fn allocator(&self) -> Global {
        *self.chunks.allocator()
    }

    // Makes room for so many further changes. It changes no item.
    pub fn reserve(&mut self, count: usize) -> Result<(), AllocError>
        ensures ok { OnOk result (count ≤ self.new.room) }
        ensures items { self.new.items ≡ self.old.items }
    {
        if count > LIMIT - self.total {
            return Err(AllocError);
        }
        let alloc = *self.chunks.allocator();
        self.chunks.reserve(count)?;
        add_spare(&mut self.spare, alloc, count)
    }

    // One more at the end.
    #[inline(always)]
    pub fn push(&mut self, x: T)
        requires { 0 < self.old.room }
        ensures items { self.new.items ≡ self.old.items ++ x ∷ [] }
        ensures room { self.old.room ≤ self.new.room + 1 }
    {
        push_in(&mut self.chunks, &mut self.spare, x);
        self.full = one_more_full(&self.chunks, self.full);
        self.total += 1;
    }

    // One more in front of the one at an index, or at the end.
    pub fn insert(&mut self, index: usize, x: T)
        requires room { 0 < self.old.room }
        requires within { index ≤ length self.old.items }
        ensures items { self.new.items ≡ insert self.old.items index x }
        ensures room { self.old.room ≤ self.new.room + 1 }
    {
        if index == self.total - self.gone {
            push_in(&mut self.chunks, &mut self.spare, x);
            self.full = one_more_full(&self.chunks, self.full);
        } else {
            let place = find(&self.chunks, self.full, self.total, self.gone + index);
            self.full = self.full.min(place.chunk);
            insert_in(
                &mut self.chunks,
                &mut self.spare,
                self.gone + index,
                place,
                x,
            );
        }
        self.total += 1;
    }

    // The one at an index goes.
    pub fn remove(&mut self, index: usize) -> T
        requires room { 0 < self.old.room }
        requires within { index < length self.old.items }
        ensures value { slice_get self.old.items index ≡ Some result }
        ensures items { self.new.items ≡ remove self.old.items index }
        ensures room { self.old.room ≤ self.new.room + 1 }
    {
        let place = find(&self.chunks, self.full, self.total, self.gone + index);
        self.full = self.full.min(place.chunk);
        let x = remove_in(&mut self.chunks, &mut self.spare, self.gone + index, place);
        self.total -= 1;
        x
    }

    // Another item at an index.
    pub fn set(&mut self, index: usize, x: T)
        requires room { 0 < self.old.room }
        requires within { index < length self.old.items }
        ensures items { self.new.items ≡ slice_set self.old.items index x }
        ensures room { self.old.room ≤ self.new.room + 1 }
    {
        let place = find(&self.chunks, self.full, self.total, self.gone + index);
        set_in(
            &mut self.chunks,
            &mut self.spare,
            self.gone + index,
            place,
            x,
        );
    }

    // The first one goes. It needs no room: a shared chunk is not changed.
    #[inline(always)]
    pub fn pop_front(&mut self) -> Option<T>
        ensures items { self.old.items ≡ option_to_list result ++ self.new.items }
        ensures none { IfNone result (self.old.items ≡ []) }
        ensures room { self.old.room ≤ self.new.room }
    {
        if self.gone == self.total {
            return None;
        }
        let place = find(&self.chunks, self.full, self.total, self.gone);
        let x = *self.chunks[place.chunk].at(place.offset);
        self.gone += 1;
        let count = drop_gone(&mut self.chunks, self.gone);
        self.total -= count;
        self.gone -= count;
        self.full = full_left(self.full, count);
        Some(x)
    }

    // From now on all chunks may be shared. No item changes, nor is there less room, also where memory is refused.
    pub fn share(&mut self) -> Result<(), AllocError>
        ensures items { self.new.items ≡ self.old.items }
        ensures room { self.new.room ≡ self.old.room }
    {
        let alloc = *self.chunks.allocator();
        share_all(alloc, &mut self.chunks)
    }

    // An equal list: what is shared is shared with it, and what is this list's own is copied.
    pub fn copy(&self) -> Result<LongList<T>, AllocError>
        ensures { IfOk result (λ l. l.items ≡ self.now.items) }
    {
        let alloc = *self.chunks.allocator();
        Ok(LongList {
            chunks: copies(alloc, &self.chunks)?,
            full: self.full,
            total: self.total,
            gone: self.gone,
            spare: Vec::new(alloc),
        })
    }
}
