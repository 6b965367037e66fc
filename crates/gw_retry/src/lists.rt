ghost use Rattle.std.specs.Prelude.{◌≡◌, ◌<◌, [], Some, true, length, slice_get, IfSome, IfOk, OnOk};
ghost use Rattle.std.specs.List.{list_all, list_any};
ghost use Rattle.gw_meaning.specs.declared.watched.Watched.{Watched};
ghost use Rattle.gw_meaning.specs.Watching.{is_watched};
ghost use Rattle.gw_retry.specs.Readings.{Keeps, Marks};

use gw_expr::Row;
use gw_meaning::Watched;
use indexmap::IndexSet;
use std::alloc::{AllocError, Global};
use std::marker::Model;

// Lists that were read, each once and found by its hash, and marks for what somebody may wait for.
#[derive(Drop)]
pub struct ReadLists {
    lists: IndexSet<Vec<Watched>>,
    marks: IndexSet<Watched>,
}

impl Model for ReadLists {
    ghost use Rattle.gw_retry.specs.Readings.{Readings, all_items};

    ghost Value = { Readings };

    ghost view = { λ r. record { lists = all_items r.lists.keys; marks = r.marks.keys } };
}

impl ReadLists {
    // No list, and no mark.
    pub fn new(alloc: Global) -> ReadLists
        ensures { result.lists ≡ [] }
    {
        ReadLists {
            lists: IndexSet::new(alloc),
            marks: IndexSet::new(alloc),
        }
    }

    // Where its memory comes from.
    pub fn allocator(&self) -> Global {
        *self.lists.allocator()
    }

    // How many lists there are.
    pub fn len(&self) -> usize
        ensures { result ≡ length self.now.lists }
    {
        self.lists.len()
    }

    // The place of a list, if it is there.
    pub fn place(&self, read: &[Watched]) -> Option<usize>
        ensures { IfSome result (λ i. slice_get self.now.lists i ≡ Some read.now) }
    {
        match self.lists.get_full(read) {
            Some((index, _)) => Some(index),
            None => None,
        }
    }

    // The list at a place.
    #[inline(always)]
    pub fn list(&self, place: usize) -> &[Watched]
        requires { place < length self.now.lists }
        ensures { slice_get self.now.lists place ≡ Some result.now }
    {
        self.lists[place].as_slice()
    }

    // Whether somebody may wait for it.
    fn is_marked(&self, thing: &Watched) -> bool
        ensures { result ≡ is_watched self.now.marks thing.now }
    {
        self.marks.contains(thing)
    }

    // Whether all of a list are marked.
    pub(crate) fn are_marked(&self, read: &[Watched]) -> bool
        ensures { result ≡ list_all (is_watched self.now.marks) read.now }
    {
        read.iter().all(|thing| self.is_marked(thing))
    }

    // Whether any of a list is marked.
    pub(crate) fn is_any_marked(&self, written: &[Watched]) -> bool
        ensures { result ≡ list_any (is_watched self.now.marks) written.now }
    {
        written.iter().any(|thing| self.is_marked(thing))
    }

    // The place of a list, all of which is marked from now on.
    pub(crate) fn learn(&mut self, read: Row<Watched>) -> Result<usize, AllocError>
        ensures there { IfOk result (λ i. slice_get self.new.lists i ≡ Some read) }
        ensures marked { OnOk result (list_all (is_watched self.new.marks) read ≡ true) }
        ensures lists { Keeps self.old.lists self.new.lists }
        ensures marks { Marks self.old.marks [] self.new.marks }
    {
        self.mark(read.as_slice())?;
        self.add(read.into_vec())
    }

    // The same, for a list of others, which is copied only where it is not there.
    pub(crate) fn learn_copy(&mut self, read: &[Watched]) -> Result<usize, AllocError>
        ensures there { IfOk result (λ i. slice_get self.new.lists i ≡ Some read.now) }
        ensures marked { OnOk result (list_all (is_watched self.new.marks) read.now ≡ true) }
        ensures lists { Keeps self.old.lists self.new.lists }
        ensures marks { Marks self.old.marks [] self.new.marks }
    {
        self.mark(read)?;
        if let Some(place) = self.place(read) {
            return Ok(place);
        }
        let own = self.copied(read)?;
        self.add(own)
    }

    // A copy of a list.
    fn copied(&self, read: &[Watched]) -> Result<Vec<Watched>, AllocError>
        ensures { IfOk result (λ v. v.items ≡ read.now) }
    {
        read.to_vec(self.allocator())
    }

    // The place of a list, which comes after the others where it is not there.
    fn add(&mut self, read: Vec<Watched>) -> Result<usize, AllocError>
        ensures there { IfOk result (λ i. slice_get self.new.lists i ≡ Some read.items) }
        ensures lists { Keeps self.old.lists self.new.lists }
        ensures marks { self.new.marks ≡ self.old.marks }
    {
        let (index, _) = self.lists.insert_full(read)?;
        Ok(index)
    }

    // All of a list are marked from now on.
    fn mark(&mut self, read: &[Watched]) -> Result<(), AllocError>
        ensures lists { self.new.lists ≡ self.old.lists }
        ensures ok { OnOk result (list_all (is_watched self.new.marks) read.now ≡ true) }
        ensures marks { Marks self.old.marks [] self.new.marks }
    {
        for index in 0..read.len() {
            self.mark_one(&read[index])?;
        }
        Ok(())
    }

    // It is marked from now on.
    fn mark_one(&mut self, thing: &Watched) -> Result<(), AllocError>
        ensures lists { self.new.lists ≡ self.old.lists }
        ensures ok { OnOk result (is_watched self.new.marks thing.now ≡ true) }
        ensures marks { Marks self.old.marks [] self.new.marks }
    {
        if !self.marks.contains(thing) {
            let own = thing.clone()?;
            self.marks.insert(own)?;
        }
        Ok(())
    }

    // None of what is written is marked any more.
    pub(crate) fn unmark(&mut self, written: &[Watched])
        ensures lists { self.new.lists ≡ self.old.lists }
        ensures marks { Marks self.old.marks written.now self.new.marks }
    {
        for index in 0..written.len() {
            self.marks.swap_remove(&written[index]);
        }
    }

    // The same lists and marks.
    pub fn copy(&self) -> Result<ReadLists, AllocError>
        ensures lists { IfOk result (λ r. r.lists ≡ self.now.lists) }
        ensures marks { IfOk result (λ r. r.marks ≡ self.now.marks) }
    {
        let lists = self.lists.clone()?;
        let marks = self.marks.clone()?;
        Ok(ReadLists { lists, marks })
    }
}
