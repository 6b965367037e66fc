ghost use Rattle.std.specs.Prelude.{◌≡◌, ◌<◌, None, IfOk, MatchOption, MatchResult, Some, length, slice_index};
ghost use Rattle.once_cell.specs.Once.{Agrees};

use gw_meaning::Edit;
use once_cell::race::{Note, OnceBox};
use std::alloc::{AllocError, Global};
use std::marker::Model;

pub(crate) const BOXES: usize = 4_096;

/// A row of boxes that are each set once. Contracts see it as the boxes' names.
#[derive(Drop)]
pub struct Row {
    boxes: Vec<OnceBox<Edit>>,
}

impl Model for Row {
    ghost use Rattle.std.specs.Prelude.{◌≡◌, ℕ, List, length, map};
    ghost use Rattle.once_cell.specs.Once.{cell_name};

    ghost Value = { List ℕ };

    ghost view = { λ r. map cell_name r.boxes.items };

    ghost invariant = { λ r. length r.boxes.items ≡ 4096 };
}

impl Row {
    /// A row of 4,096 empty boxes.
    pub fn new(alloc: Global) -> Result<Row, AllocError>
        ensures { IfOk result (λ r. length r ≡ 4096) }
    {
        let mut boxes = Vec::new(alloc);
        for _ in 0..BOXES {
            boxes.reserve(1)?;
            boxes.push_reserved(OnceBox::new(alloc));
        }
        Ok(Row { boxes })
    }

    /// How many boxes it has.
    pub(crate) fn len(&self) -> usize
        ensures length { result ≡ length self.now }
        ensures count { result ≡ 4096 }
    {
        self.boxes.len()
    }

    /// A note of the box of this number, that knows nothing yet.
    pub(crate) fn note(&self, number: usize) -> Note<Edit>
        requires { number < length self.now }
        ensures { (result.cell ≡ slice_index self.now number) × (result.known ≡ None) }
    {
        self.boxes[number].note()
    }

    /// The edit in the box of this number, if the box is full.
    pub(crate) fn read<'a>(&'a self, number: usize, note: &mut Note<Edit>) -> Option<&'a Edit>
        requires number { number < length self.now }
        requires note { note.old.cell ≡ slice_index self.now number }
        ensures cell { note.new.cell ≡ note.old.cell }
        ensures value { MatchOption result ((note.old.known ≡ None) × (note.new.known ≡ None))
            (λ r. (note.new.known ≡ Some r.now) × Agrees note.old.known r.now) }
    {
        self.boxes[number].get_as(note)
    }

    /// Sets the box of this number to the edit. At `Err` it was full, and the edit comes back.
    pub(crate) fn put(
        &self,
        number: usize,
        edit: Box<Edit>,
        note: &mut Note<Edit>,
    ) -> Result<(), Box<Edit>>
        requires number { number < length self.now }
        requires note { note.old.cell ≡ slice_index self.now number }
        ensures cell { note.new.cell ≡ note.old.cell }
        ensures value { MatchResult result (λ _. note.new.known ≡ Some edit.value) (λ back. back.value ≡ edit.value) }
    {
        self.boxes[number].set_as(edit, note)
    }

    /// The edit that stands in the box of this number, after a lost setting.
    pub(crate) fn settled<'a>(
        &'a self,
        number: usize,
        edit: Box<Edit>,
        note: &mut Note<Edit>,
    ) -> &'a Edit
        requires number { number < length self.now }
        requires note { note.old.cell ≡ slice_index self.now number }
        ensures cell { note.new.cell ≡ note.old.cell }
        ensures value { note.new.known ≡ Some result.now }
    {
        self.boxes[number].get_or_init_as(move || edit, note)
    }
}
