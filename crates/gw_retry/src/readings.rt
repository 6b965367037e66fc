ghost use Rattle.std.specs.Prelude.{◌≡◌, ◌<◌, [], Some, true, length, slice_get, IfOk, OnOk};
ghost use Rattle.std.specs.List.{list_all, list_any};
ghost use Rattle.gw_meaning.specs.declared.watched.Watched.{Watched};
ghost use Rattle.gw_meaning.specs.Watching.{is_watched};
ghost use Rattle.gw_retry.specs.Readings.{Keeps, Marks};

use crate::lists::ReadLists;
use gw_expr::Row;
use gw_meaning::Watched;
use std::alloc::{AllocError, Global};
use std::marker::Model;
use std::mem;
use std::sync::Arc;

// What those who wait have read. Copies share it until one of them changes it.
#[derive(Drop)]
pub struct SharedReadings {
    kept: Kept,
}

// What copies may share is not changed any more.
#[derive(Drop)]
pub enum Kept {
    Own(ReadLists),
    Shared(Arc<ReadLists>),
}

impl Model for SharedReadings {
    ghost use Rattle.gw_retry.specs.Readings.{Readings};
    ghost use Rattle.gw_retry.specs.Kept.{readings_in};

    ghost Value = { Readings };

    ghost view = { λ r. readings_in r.kept };
}

impl SharedReadings {
    // Nothing was read.
    pub fn new(alloc: Global) -> SharedReadings {
        SharedReadings {
            kept: Kept::Own(ReadLists::new(alloc)),
        }
    }

    // These lists and marks.
    pub fn of(lists: ReadLists) -> SharedReadings
        ensures { result ≡ lists }
    {
        SharedReadings {
            kept: Kept::Own(lists),
        }
    }

    // Where its memory comes from.
    pub fn allocator(&self) -> Global {
        self.lists().allocator()
    }

    #[inline(always)]
    fn lists(&self) -> &ReadLists
        ensures { result.now ≡ self.now }
    {
        match &self.kept {
            Kept::Own(lists) => lists,
            Kept::Shared(shared) => shared,
        }
    }

    // How many lists there are.
    pub fn len(&self) -> usize
        ensures { result ≡ length self.now.lists }
    {
        self.lists().len()
    }

    // The list at a place.
    #[inline(always)]
    pub fn list(&self, place: usize) -> &[Watched]
        requires { place < length self.now.lists }
        ensures { slice_get self.now.lists place ≡ Some result.now }
    {
        self.lists().list(place)
    }

    // Whether somebody may wait for any of these.
    pub(crate) fn is_any_marked(&self, written: &[Watched]) -> bool
        ensures { result ≡ list_any (is_watched self.now.marks) written.now }
    {
        self.lists().is_any_marked(written)
    }

    // The place of a list, all of which is marked from now on. A list that is there and marked takes no memory.
    pub fn add(&mut self, read: Row<Watched>) -> Result<usize, AllocError>
        ensures there { IfOk result (λ i. slice_get self.new.lists i ≡ Some read) }
        ensures marked { OnOk result (list_all (is_watched self.new.marks) read ≡ true) }
        ensures lists { Keeps self.old.lists self.new.lists }
        ensures marks { Marks self.old.marks [] self.new.marks }
    {
        let lists = self.lists();
        if let Some(place) = lists.place(read.as_slice()) {
            if lists.are_marked(read.as_slice()) {
                return Ok(place);
            }
        }
        match &mut self.kept {
            Kept::Own(own) => own.learn(read),
            Kept::Shared(shared) => {
                let mut own = shared.copy()?;
                let place = own.learn(read)?;
                self.kept = Kept::Own(own);
                Ok(place)
            }
        }
    }

    // It may be changed without memory from now on.
    pub(crate) fn make_own(&mut self) -> Result<(), AllocError>
        ensures { self.new ≡ self.old }
    {
        let Kept::Shared(shared) = &self.kept else {
            return Ok(());
        };
        let own = shared.copy()?;
        self.kept = Kept::Own(own);
        Ok(())
    }

    // None of what is written is marked any more, unless copies share the marks.
    pub(crate) fn unmark(&mut self, written: &[Watched])
        ensures lists { self.new.lists ≡ self.old.lists }
        ensures marks { Marks self.old.marks written.now self.new.marks }
    {
        if let Kept::Own(own) = &mut self.kept {
            own.unmark(written);
        }
    }

    // Copies share it from now on.
    pub fn share(&mut self) -> Result<(), AllocError>
        ensures { self.new ≡ self.old }
    {
        let alloc = self.allocator();
        match mem::replace(&mut self.kept, Kept::Own(ReadLists::new(alloc))) {
            Kept::Own(own) => match Arc::new(alloc, own) {
                Ok(shared) => {
                    self.kept = Kept::Shared(shared);
                    Ok(())
                }
                Err(failed) => {
                    self.kept = Kept::Own(failed.value);
                    Err(AllocError)
                }
            },
            Kept::Shared(shared) => {
                self.kept = Kept::Shared(shared);
                Ok(())
            }
        }
    }

    // The same.
    pub fn copy(&self) -> Result<SharedReadings, AllocError>
        ensures { IfOk result (λ r. r ≡ self.now) }
    {
        let kept = match &self.kept {
            Kept::Own(own) => Kept::Own(own.copy()?),
            Kept::Shared(shared) => Kept::Shared(Arc::try_clone(shared)?),
        };
        Ok(SharedReadings { kept })
    }
}
