ghost use Rattle.std.specs.Prelude.{◌≡◌, ◌<◌, ◌≤◌, ◌+◌, ◌++◌, ◌∷◌, [], Some, IfOk, length, map, drop, insert, remove, slice_get, slice_set, OnOk, ◌/◌, ◌-◌, ℕ};
ghost use Rattle.std.specs.VecDeque.{deque_len, deque_capacity};
ghost use Rattle.gw_shared.specs.Lists.{chunk_items, joined, AreFull, IsPlace};

use crate::buffer::{Buffer, CHUNK};
use crate::chunk::Chunk;
use crate::place::Place;
use std::alloc::{AllocError, Global};
use std::collections::VecDeque;

// One more at the end.
#[inline(always)]
pub fn push_in<T: Copy>(chunks: &mut VecDeque<Chunk<T>>, spare: &mut Vec<Box<Buffer<T>>>, x: T)
    requires room { deque_len chunks.old < deque_capacity chunks.old }
    requires spare { 0 < length spare.old.items }
    ensures items { joined chunks.new.items ≡ joined chunks.old.items ++ x ∷ [] }
    ensures full { (n : ℕ) → AreFull n chunks.old.items → AreFull n chunks.new.items }
    ensures count { deque_len chunks.new ≤ deque_len chunks.old + 1 }
    ensures capacity { deque_capacity chunks.old ≤ deque_capacity chunks.new }
    ensures spare { length spare.old.items ≤ length spare.new.items + 1 }
{
    let count = chunks.len();
    if count > 0 {
        let last = &mut chunks[count - 1];
        if last.len() < CHUNK {
            last.push(x, spare);
            return;
        }
    }
    let Some(mut own) = spare.pop() else {
        unreachable!()
    };
    own.clear();
    own.push(x);
    chunks.push_back_reserved(Chunk::Own(own));
}

// One more in front of the one at a place.
pub fn insert_in<T: Copy>(
    chunks: &mut VecDeque<Chunk<T>>,
    spare: &mut Vec<Box<Buffer<T>>>,
    index: usize,
    place: Place,
    x: T,
)
    requires room { deque_len chunks.old < deque_capacity chunks.old }
    requires spare { 2 ≤ length spare.old.items }
    requires place { IsPlace chunks.old.items index place.chunk place.offset }
    ensures items { joined chunks.new.items ≡ insert (joined chunks.old.items) index x }
    ensures full { (n : ℕ) → n ≤ place.chunk → AreFull n chunks.old.items → AreFull n chunks.new.items }
    ensures count { deque_len chunks.new ≤ deque_len chunks.old + 1 }
    ensures capacity { deque_capacity chunks.old ≤ deque_capacity chunks.new }
    ensures spare { length spare.old.items ≤ length spare.new.items + 2 }
{
    let chunk = &mut chunks[place.chunk];
    if chunk.len() < CHUNK {
        chunk.insert(place.offset, x, spare);
        return;
    }
    let back = chunk.insert_splitting(place.offset, x, spare);
    match chunks.insert(place.chunk + 1, back) {
        Ok(()) => (),
        Err(_) => unreachable!(),
    }
}

// The one at a place goes.
pub fn remove_in<T: Copy>(
    chunks: &mut VecDeque<Chunk<T>>,
    spare: &mut Vec<Box<Buffer<T>>>,
    index: usize,
    place: Place,
) -> T
    requires spare { 0 < length spare.old.items }
    requires place { IsPlace chunks.old.items index place.chunk place.offset }
    ensures value { slice_get (joined chunks.old.items) index ≡ Some result }
    ensures items { joined chunks.new.items ≡ remove (joined chunks.old.items) index }
    ensures full { (n : ℕ) → n ≤ place.chunk → AreFull n chunks.old.items → AreFull n chunks.new.items }
    ensures count { deque_len chunks.new ≤ deque_len chunks.old }
    ensures capacity { deque_capacity chunks.old ≤ deque_capacity chunks.new }
    ensures spare { length spare.old.items ≤ length spare.new.items + 1 }
{
    let chunk = &mut chunks[place.chunk];
    let x = chunk.remove(place.offset, spare);
    drop_if_empty(chunks, place.chunk);
    x
}

// A chunk with no items goes.
fn drop_if_empty<T: Copy>(chunks: &mut VecDeque<Chunk<T>>, at: usize)
    requires { at < deque_len chunks.old }
    ensures items { joined chunks.new.items ≡ joined chunks.old.items }
    ensures full { (n : ℕ) → n ≤ at → AreFull n chunks.old.items → AreFull n chunks.new.items }
    ensures count { deque_len chunks.new ≤ deque_len chunks.old }
    ensures capacity { deque_capacity chunks.old ≤ deque_capacity chunks.new }
{
    if chunks[at].len() == 0 {
        match chunks.remove(at) {
            Some(_) => (),
            None => unreachable!(),
        }
    }
}

// The first chunk goes, where so many in front are gone and all of its items are among them. How many it had.
#[inline(always)]
pub fn drop_gone<T: Copy>(chunks: &mut VecDeque<Chunk<T>>, gone: usize) -> usize
    ensures gone { result ≤ gone }
    ensures items { joined chunks.new.items ≡ drop result (joined chunks.old.items) }
    ensures len { length (joined chunks.new.items) + result ≡ length (joined chunks.old.items) }
    ensures full { (n : ℕ) → AreFull n chunks.old.items → AreFull (n - 1) chunks.new.items }
    ensures stays { result ≡ 0 → chunks.new.items ≡ chunks.old.items }
    ensures count { deque_len chunks.new ≤ deque_len chunks.old }
    ensures capacity { deque_capacity chunks.old ≤ deque_capacity chunks.new }
{
    if chunks.is_empty() {
        return 0;
    }
    let count = chunks[0].len();
    if count == 0 || count > gone {
        return 0;
    }
    chunks.pop_front();
    count
}

// Another item at a place.
pub fn set_in<T: Copy>(
    chunks: &mut VecDeque<Chunk<T>>,
    spare: &mut Vec<Box<Buffer<T>>>,
    index: usize,
    place: Place,
    x: T,
)
    requires spare { 0 < length spare.old.items }
    requires place { IsPlace chunks.old.items index place.chunk place.offset }
    ensures items { joined chunks.new.items ≡ slice_set (joined chunks.old.items) index x }
    ensures full { (n : ℕ) → AreFull n chunks.old.items → AreFull n chunks.new.items }
    ensures count { deque_len chunks.new ≤ deque_len chunks.old }
    ensures capacity { deque_capacity chunks.old ≤ deque_capacity chunks.new }
    ensures spare { length spare.old.items ≤ length spare.new.items + 1 }
{
    chunks[place.chunk].set(place.offset, x, spare);
}

// From now on all of these may be shared.
pub fn share_all<T: Copy>(alloc: Global, chunks: &mut VecDeque<Chunk<T>>) -> Result<(), AllocError>
    ensures same { map chunk_items chunks.new.items ≡ map chunk_items chunks.old.items }
    ensures count { deque_len chunks.new ≡ deque_len chunks.old }
    ensures capacity { deque_capacity chunks.new ≡ deque_capacity chunks.old }
{
    for at in 0..chunks.len() {
        chunks[at].share(alloc)?;
    }
    Ok(())
}

// Chunks of the same items: those that may be shared are shared with these.
pub fn copies<T: Copy>(
    alloc: Global,
    chunks: &VecDeque<Chunk<T>>,
) -> Result<VecDeque<Chunk<T>>, AllocError>
    ensures { IfOk result (λ cs. map chunk_items cs.items ≡ map chunk_items chunks.now.items) }
{
    let mut copies = VecDeque::with_capacity(alloc, chunks.len())?;
    for at in 0..chunks.len() {
        copies.push_back(chunks[at].copy(alloc)?)?;
    }
    Ok(copies)
}

// Two spare buffers at least for each of so many changes.
pub fn add_spare<T: Copy>(
    spare: &mut Vec<Box<Buffer<T>>>,
    alloc: Global,
    count: usize,
) -> Result<(), AllocError>
    ensures ok { OnOk result (count ≤ length spare.new.items / 2) }
    ensures more { length spare.old.items ≤ length spare.new.items }
{
    while spare.len() / 2 < count {
        spare.push(Box::new(alloc, Buffer::new(alloc)?)?)?;
    }
    Ok(())
}

// How many chunks in front are full: one more, if the next one is full too.
#[inline(always)]
pub fn one_more_full<T: Copy>(chunks: &VecDeque<Chunk<T>>, full: usize) -> usize
    requires { AreFull full chunks.now.items }
    ensures { AreFull result chunks.now.items }
{
    if full < chunks.len() && chunks[full].len() == CHUNK {
        full + 1
    } else {
        full
    }
}

// How many chunks in front are full, where a first chunk with so many items went, or none did.
#[inline(always)]
pub fn full_left(full: usize, count: usize) -> usize
    ensures same { count ≡ 0 → result ≡ full }
    ensures fewer { 0 < count → result ≡ full - 1 }
{
    if count == 0 {
        full
    } else {
        full.saturating_sub(1)
    }
}
