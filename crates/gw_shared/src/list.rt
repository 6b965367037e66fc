ghost use Rattle.std.specs.Prelude.{◌≡◌, ◌==◌, ◌<◌, ◌≤◌, ◌+◌, ◌^◌, ◌++◌, ◌∷◌, [], Some, IfOk, OnOk, IfNone, length, take, drop, vec_len, vec_capacity, insert, remove, slice_get, slice_set, option_to_list};
ghost use Rattle.std.specs.Slice.{IsItemAt};
ghost use Rattle.gw_shared.specs.Runs.{IsRun};
ghost use Rattle.std.specs.VecDeque.{deque_len, deque_capacity};

use crate::buffer::CHUNK;
use crate::long::LongList;
use std::alloc::{AllocError, Global};
use std::collections::VecDeque;
use std::marker::Model;

// So many items are copied for each copy of the list; more are shared.
const FEW: usize = 32;

// A list in chunks has two buffers for each change that it has room for. For more changes than these it is laid out
// plainly, unless the buffers take less than its items.
const CHANGES: usize = 8;

/// A list whose copies share what did not change: they take the time and the memory of what changed since the list was
/// last shared, and of a pointer for every 64 items. A list of a few items is copied, and takes the memory of its items.
///
/// Its view is its items and its room: so many changes cannot fail.
#[derive(Drop)]
pub struct SharedList<T: Copy> {
    form: Form<T>,
}

// How a list lies in memory. One without items and without room takes the least: there may be very many.
#[derive(Drop)]
pub enum Form<T: Copy> {
    Empty(Global),
    Plain(Box<VecDeque<T>>),
    // In chunks that copies may share.
    Long(Box<LongList<T>>),
}

impl<T: Copy> Model for SharedList<T> {
    ghost use Rattle.gw_shared.specs.Lists.{Roomy};
    ghost use Rattle.gw_shared.specs.Forms.{form_items, form_room};

    ghost Value = { Roomy T };

    ghost view = { λ l. record {
      items = form_items l.form;
      room = form_room l.form;
    } };
}

impl<T: Copy> SharedList<T> {
    /// An empty list.
    pub fn new(alloc: Global) -> SharedList<T>
        ensures { result.items ≡ [] }
    {
        SharedList {
            form: Form::Empty(alloc),
        }
    }

    /// How many items there are.
    #[inline(always)]
    pub fn len(&self) -> usize
        ensures len { result ≡ length self.now.items }
        ensures bound { result < 2 ^ 63 }
    {
        match &self.form {
            Form::Empty(_) => 0,
            Form::Plain(items) => items.len(),
            Form::Long(items) => items.len(),
        }
    }

    /// Whether there is none.
    #[inline(always)]
    pub fn is_empty(&self) -> bool
        ensures { result ≡ (length self.now.items == 0) }
    {
        self.len() == 0
    }

    /// For how many changes there is room.
    pub fn room(&self) -> usize
        ensures { result ≡ self.now.room }
    {
        match &self.form {
            Form::Empty(_) => 0,
            Form::Plain(items) => items.capacity() - items.len(),
            Form::Long(items) => items.room(),
        }
    }

    /// The item at an index.
    #[inline(always)]
    pub fn at(&self, index: usize) -> &T
        requires { index < length self.now.items }
        ensures { slice_get self.now.items index ≡ Some result.now }
    {
        match &self.form {
            Form::Empty(_) => unreachable!(),
            Form::Plain(items) => &items[index],
            Form::Long(items) => items.at(index),
        }
    }

    /// The item at an index, if there is one.
    #[inline(always)]
    pub fn get(&self, index: usize) -> Option<&T>
        ensures { IsItemAt self.now.items index result }
    {
        if index < self.len() {
            Some(self.at(index))
        } else {
            None
        }
    }

    /// The items from an index on that lie together, one at the least. To go over a list by these is quicker than by
    /// [`SharedList::at`], which looks for the place of each.
    pub fn run(&self, index: usize) -> &[T]
        requires { index < length self.now.items }
        ensures some { 0 < length result.now }
        ensures run { IsRun self.now.items index result.now }
    {
        match &self.form {
            Form::Empty(_) => unreachable!(),
            Form::Plain(items) => plain_run(items, index),
            Form::Long(items) => items.run(index),
        }
    }

    /// Makes room for so many further changes. It changes no item.
    ///
    /// # Errors
    ///
    /// Where memory is refused.
    #[inline(always)]
    pub fn reserve(&mut self, count: usize) -> Result<(), AllocError>
        ensures ok { OnOk result (count ≤ self.new.room) }
        ensures items { self.new.items ≡ self.old.items }
    {
        match &mut self.form {
            Form::Empty(_) => self.lay_out(count),
            Form::Plain(items) => items.reserve(count),
            Form::Long(items) => {
                let few = CHANGES.max(items.len() / (2 * CHUNK));
                if count <= few && items.len() > CHANGES {
                    items.reserve(count)
                } else {
                    self.lay_out(count)
                }
            }
        }
    }

    // From now on it lies plainly, with room for so many changes.
    #[inline(never)]
    fn lay_out(&mut self, count: usize) -> Result<(), AllocError>
        ensures ok { OnOk result (count ≤ self.new.room) }
        ensures items { self.new.items ≡ self.old.items }
    {
        let plain = self.plain(count)?;
        self.form = Form::Plain(plain);
        Ok(())
    }

    // The same items laid out plainly, with room for so many changes.
    fn plain(&self, count: usize) -> Result<Box<VecDeque<T>>, AllocError>
        ensures items { IfOk result (λ b. b.value.items ≡ self.now.items) }
        ensures room { IfOk result (λ b. deque_len b.value + count ≤ deque_capacity b.value) }
    {
        let alloc = self.allocator();
        let mut plain = VecDeque::with_capacity(alloc, self.len())?;
        for index in 0..self.len() {
            plain.push_back(*self.at(index))?;
        }
        plain.reserve(count)?;
        Ok(Box::new(alloc, plain)?)
    }

    /// One more at the end.
    #[inline(always)]
    pub fn push(&mut self, x: T)
        requires { 0 < self.old.room }
        ensures items { self.new.items ≡ self.old.items ++ x ∷ [] }
        ensures room { self.old.room ≤ self.new.room + 1 }
    {
        match &mut self.form {
            Form::Empty(_) => unreachable!(),
            Form::Plain(items) => items.push_back_reserved(x),
            Form::Long(items) => items.push(x),
        }
    }

    /// One more in front of the one at an index, or at the end.
    pub fn insert(&mut self, index: usize, x: T)
        requires room { 0 < self.old.room }
        requires within { index ≤ length self.old.items }
        ensures items { self.new.items ≡ insert self.old.items index x }
        ensures room { self.old.room ≤ self.new.room + 1 }
    {
        match &mut self.form {
            Form::Empty(_) => unreachable!(),
            Form::Plain(items) => match items.insert(index, x) {
                Ok(()) => (),
                Err(_) => unreachable!(),
            },
            Form::Long(items) => items.insert(index, x),
        }
    }

    /// The one at an index goes.
    pub fn remove(&mut self, index: usize) -> T
        requires room { 0 < self.old.room }
        requires within { index < length self.old.items }
        ensures value { slice_get self.old.items index ≡ Some result }
        ensures items { self.new.items ≡ remove self.old.items index }
        ensures room { self.old.room ≤ self.new.room + 1 }
    {
        match &mut self.form {
            Form::Empty(_) => unreachable!(),
            Form::Plain(items) => match items.remove(index) {
                Some(x) => x,
                None => unreachable!(),
            },
            Form::Long(items) => take_out(items, index),
        }
    }

    /// So many items go, from an index on, to the end of `into`, which has room for them.
    pub fn take_run(&mut self, start: usize, count: usize, into: &mut Vec<T>)
        requires room { count ≤ self.old.room }
        requires within { start + count ≤ length self.old.items }
        requires capacity { vec_len into.old + count ≤ vec_capacity into.old }
        ensures taken { into.new.items ≡ into.old.items ++ take count (drop start self.old.items) }
        ensures items { self.new.items ≡ take start self.old.items ++ drop (start + count) self.old.items }
        ensures room { self.old.room ≤ self.new.room + count }
        ensures len { vec_len into.new ≡ vec_len into.old + count }
        ensures capacity { vec_capacity into.new ≡ vec_capacity into.old }
    {
        match &mut self.form {
            Form::Empty(_) => (),
            Form::Plain(items) => take_plain(items, start, count, into),
            Form::Long(items) => take_long(items, start, count, into),
        }
    }

    /// Another item at an index.
    #[inline(always)]
    pub fn set(&mut self, index: usize, x: T)
        requires room { 0 < self.old.room }
        requires within { index < length self.old.items }
        ensures items { self.new.items ≡ slice_set self.old.items index x }
        ensures room { self.old.room ≤ self.new.room + 1 }
    {
        match &mut self.form {
            Form::Empty(_) => unreachable!(),
            Form::Plain(items) => items[index] = x,
            Form::Long(items) => items.set(index, x),
        }
    }

    /// The first one goes. It needs no room, and leaves no less.
    #[inline(always)]
    pub fn pop_front(&mut self) -> Option<T>
        ensures items { self.old.items ≡ option_to_list result ++ self.new.items }
        ensures none { IfNone result (self.old.items ≡ []) }
        ensures room { self.old.room ≤ self.new.room }
    {
        match &mut self.form {
            Form::Empty(_) => None,
            Form::Plain(items) => items.pop_front(),
            Form::Long(items) => items.pop_front(),
        }
    }

    /// All items go. A list of a few keeps its room for others.
    pub fn clear(&mut self)
        ensures { self.new.items ≡ [] }
    {
        if let Form::Plain(items) = &mut self.form {
            items.clear();
            return;
        }
        let alloc = self.allocator();
        self.form = Form::Empty(alloc);
    }

    /// Copies share from now on what it holds now. No item changes, also where memory is refused; the room is gone.
    ///
    /// # Errors
    ///
    /// Where memory is refused.
    pub fn share(&mut self) -> Result<(), AllocError>
        ensures { self.new.items ≡ self.old.items }
    {
        if let Form::Long(items) = &mut self.form {
            return items.share();
        }
        if self.len() <= FEW {
            return Ok(());
        }
        let long = self.long()?;
        self.form = Form::Long(long);
        Ok(())
    }

    // The same items in chunks, all of which may be shared.
    fn long(&self) -> Result<Box<LongList<T>>, AllocError>
        ensures { IfOk result (λ l. l.value.items ≡ self.now.items) }
    {
        let alloc = self.allocator();
        let mut long = LongList::new(alloc);
        let count = self.len();
        for index in 0..count {
            long.reserve(1)?;
            long.push(*self.at(index));
        }
        long.share()?;
        Ok(Box::new(alloc, long)?)
    }

    /// An equal list: what is shared is shared with it, and what is not is copied.
    ///
    /// # Errors
    ///
    /// Where memory is refused.
    pub fn copy(&self) -> Result<SharedList<T>, AllocError>
        ensures { IfOk result (λ l. l.items ≡ self.now.items) }
    {
        if self.is_empty() {
            return Ok(SharedList::new(self.allocator()));
        }
        match &self.form {
            Form::Empty(_) => unreachable!(),
            Form::Plain(_) => Ok(SharedList {
                form: Form::Plain(self.plain(0)?),
            }),
            Form::Long(items) => Ok(SharedList {
                form: Form::Long(Box::new(items.allocator(), items.copy()?)?),
            }),
        }
    }

    fn allocator(&self) -> Global {
        match &self.form {
            Form::Empty(alloc) => *alloc,
            Form::Plain(items) => *items.allocator(),
            Form::Long(items) => items.allocator(),
        }
    }
}

// The one at an index goes. The first one needs no room.
fn take_out<T: Copy>(items: &mut LongList<T>, index: usize) -> T
    requires room { 0 < items.old.room }
    requires within { index < length items.old.items }
    ensures value { slice_get items.old.items index ≡ Some result }
    ensures items { items.new.items ≡ remove items.old.items index }
    ensures room { items.old.room ≤ items.new.room + 1 }
{
    if index > 0 {
        return items.remove(index);
    }
    match items.pop_front() {
        Some(x) => x,
        None => unreachable!(),
    }
}

// The items from an index on that lie together.
fn plain_run<T: Copy>(items: &VecDeque<T>, index: usize) -> &[T]
    requires { index < length items.now.items }
    ensures some { 0 < length result.now }
    ensures run { IsRun items.now.items index result.now }
{
    let (front, back) = items.as_slices();
    if index < front.len() {
        front.split_at(index).1
    } else {
        back.split_at(index - front.len()).1
    }
}

// So many items go, from an index on. The deque is rotated until they are in front, so each other item moves at most
// twice.
fn take_plain<T: Copy>(items: &mut VecDeque<T>, start: usize, count: usize, into: &mut Vec<T>)
    requires within { start + count ≤ length items.old.items }
    requires capacity { vec_len into.old + count ≤ vec_capacity into.old }
    ensures taken { into.new.items ≡ into.old.items ++ take count (drop start items.old.items) }
    ensures items { items.new.items ≡ take start items.old.items ++ drop (start + count) items.old.items }
    ensures count { deque_len items.new ≤ deque_len items.old }
    ensures room { deque_capacity items.new ≡ deque_capacity items.old }
    ensures len { vec_len into.new ≡ vec_len into.old + count }
    ensures capacity { vec_capacity into.new ≡ vec_capacity into.old }
{
    items.rotate_left(start);
    for _one in 0..count {
        match items.pop_front() {
            Some(x) => into.push_reserved(x),
            None => unreachable!(),
        }
    }
    items.rotate_right(start);
}

fn take_long<T: Copy>(items: &mut LongList<T>, start: usize, count: usize, into: &mut Vec<T>)
    requires room { count ≤ items.old.room }
    requires within { start + count ≤ length items.old.items }
    requires capacity { vec_len into.old + count ≤ vec_capacity into.old }
    ensures taken { into.new.items ≡ into.old.items ++ take count (drop start items.old.items) }
    ensures items { items.new.items ≡ take start items.old.items ++ drop (start + count) items.old.items }
    ensures room { items.old.room ≤ items.new.room + count }
    ensures len { vec_len into.new ≡ vec_len into.old + count }
    ensures capacity { vec_capacity into.new ≡ vec_capacity into.old }
{
    for _one in 0..count {
        into.push_reserved(take_out(items, start));
    }
}
