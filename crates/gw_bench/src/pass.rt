ghost use Rattle.std.specs.Prelude.{◌≡◌, ◌<◌, ◌≤◌, ◌++◌, ◌∷◌, [], ◌⊎◌, length, None, Some};
ghost use Rattle.std.specs.Prelude.{IfOk, IfErr, IfSome, MatchBool, OnErr, OnOk};
ghost use Rattle.std.specs.Prelude.{option_to_list, slice_get, slice_index};
ghost use Rattle.once_cell.specs.Once.{Agrees};
ghost use mathlib.Core.List.{IsPrefix};
ghost use Rattle.gw_meaning.specs.declared.edit.Edit.{Edit as AnEdit};
ghost use Rattle.gw_edit.specs.Applied.{applied};
ghost use Rattle.gw_edit.specs.Leading.{or_same, version_of};
ghost use Rattle.gw_bench.specs.Fronts.{Follows};
ghost use Rattle.gw_bench.specs.Faults.{Says, Puts};

use crate::fault::{BenchFault, refusal_of};
use crate::row::{BOXES, Row};
use gw_edit::{EditFault, apply};
use gw_meaning::Edit;
use gw_model::Version;
use note_copy::second;
use once_cell::race::Note;
use std::alloc::{AllocError, Global};
use std::marker::{Brand, Model, PhantomData};

/// Which row it is: its boxes and its opening version. Each call of a program picks it.
pub trait RowName {
    ghost use Rattle.std.specs.Prelude.{ℕ, List};
    ghost use Rattle.gw_meaning.specs.Listing.{Listing};

    ghost boxes: { List ℕ };

    ghost opening: { Listing };
}

impl RowName for Brand {
    ghost use Rattle.std.specs.Prelude.{[]};

    ghost boxes = { [] };

    ghost opening = { record { lines = []; horizon = 1; replications = []; limit = 1 } };
}

/// What a caller has seen of the row. Contracts see it as the edits in the boxes that it has seen.
#[derive(Drop)]
pub struct Pass<N: RowName> {
    version: Version,
    notes: Vec<Note<Edit>>,
    of: PhantomData<N>,
}

impl<N: RowName> Model for Pass<N> {
    ghost use Rattle.std.specs.Prelude.{List};
    ghost use Rattle.std.specs.Vec.{vec_capacity};
    ghost use Rattle.gw_meaning.specs.declared.edit.Edit.{Edit};
    ghost use Rattle.gw_bench.specs.Fronts.{front_of, IsPass};

    ghost Value = { List Edit };

    ghost view = { λ p. front_of p.notes.items };

    ghost invariant = { λ p. IsPass N.boxes N.opening p.version (vec_capacity p.notes) p.notes.items };
}

impl<N: RowName> Pass<N> {
    /// A pass that has seen nothing.
    pub(crate) fn new(alloc: Global, opening: Version) -> Result<Pass<N>, AllocError>
        requires { opening ≡ N.opening }
        ensures { IfOk result (λ pass. pass ≡ []) }
    {
        Ok(Pass {
            version: opening,
            notes: Vec::with_capacity(alloc, BOXES)?,
            of: PhantomData,
        })
    }

    /// How many edits it has seen.
    pub fn len(&self) -> u64
        ensures length { result ≡ length self.now }
        ensures fits { result ≤ 4096 }
    {
        self.notes.len() as u64
    }

    /// The version that the edits give.
    pub fn version(&self) -> &Version
        ensures { result.now ≡ version_of N.opening self.now }
    {
        &self.version
    }

    /// The version after one edit more; a refused edit leaves it as it is.
    pub(crate) fn next(&self, alloc: Global, edit: &Edit) -> Result<Version, AllocError>
        ensures { IfOk result (λ v.
            v ≡ or_same (version_of N.opening self.now) (applied (version_of N.opening self.now) edit.now)) }
    {
        match apply(alloc, &self.version, edit) {
            Ok(next) => Ok(next),
            Err(EditFault::Memory) => Err(AllocError),
            Err(_) => self.version.copy(alloc),
        }
    }

    /// Takes in a note of the next box, which knows its edit, and the version after that.
    pub(crate) fn push(&mut self, note: Note<Edit>, version: Version)
        requires { Follows N.boxes N.opening self.old note version }
        ensures { self.new ≡ self.old ++ option_to_list note.known }
    {
        self.notes.push_reserved(note);
        self.version = version;
    }

    /// A second note of a box that was seen.
    pub(crate) fn note_again(&self, alloc: Global, number: u64) -> Note<Edit>
        requires { number < length self.now }
        ensures { (result.cell ≡ slice_index N.boxes number) × (result.known ≡ slice_get self.now number) }
    {
        second(alloc, &self.notes[number as usize])
    }

    /// Of two passes over one row, one has seen the beginning of what the other has seen.
    pub(crate) fn meet(&self, alloc: Global, other: &Pass<N>)
        ensures { IsPrefix self.now other.now ⊎ IsPrefix other.now self.now }
    {
        let count = self.notes.len().min(other.notes.len());
        'notes: for number in 0..count {
            agree(alloc, &self.notes[number], &other.notes[number]);
        }
    }

    /// Reads the next box with this note, and says whether it was full.
    pub(crate) fn read_with(
        &mut self,
        alloc: Global,
        row: &Row,
        mut note: Note<Edit>,
    ) -> Result<bool, AllocError>
        requires row { row.now ≡ N.boxes }
        requires room { (length self.old < length N.boxes) × (length self.old < 4096) }
        requires note { note.cell ≡ slice_index N.boxes (length self.old) }
        ensures ok { IfOk result (λ full.
            MatchBool full ((e : AnEdit) × (self.new ≡ self.old ++ e ∷ [])) ((self.new ≡ self.old) × (note.known ≡ None))) }
        ensures err { OnErr result (self.new ≡ self.old) }
    {
        let Some(edit) = row.read(self.len() as usize, &mut note) else {
            return Ok(false);
        };
        let version = self.next(alloc, edit)?;
        self.push(note, version);
        Ok(true)
    }

    /// Reads on to the first empty box, or the end of the row.
    pub(crate) fn read_on(&mut self, alloc: Global, row: &Row) -> Result<(), AllocError>
        requires { row.now ≡ N.boxes }
        ensures { IsPrefix self.old self.new }
    {
        'boxes: while (self.len() as usize) < row.len() {
            let note = row.note(self.len() as usize);
            if !self.read_with(alloc, row, note)? {
                break;
            }
        }
        Ok(())
    }

    /// Puts the edit into the box after those seen. `false`: another edit stood there, and is seen now.
    pub(crate) fn put_next(
        &mut self,
        alloc: Global,
        row: &Row,
        edit: &Edit,
    ) -> Result<bool, BenchFault>
        requires { row.now ≡ N.boxes }
        ensures ok { IfOk result (λ won.
            MatchBool won (Puts N.opening self.old self.new edit.now) ((e : AnEdit) × (self.new ≡ self.old ++ e ∷ []))) }
        ensures err { IfErr result (λ fault. (self.new ≡ self.old) × Says fault N.opening self.new edit.now) }
    {
        let number = self.len();
        if number as usize >= row.len() {
            return Err(BenchFault::HistoryFull);
        }
        let next = match apply(alloc, self.version(), edit) {
            Ok(next) => next,
            Err(fault) => return Err(refusal_of(fault, number)),
        };
        let Ok(mine) = edit.copy(alloc) else {
            return Err(BenchFault::Memory);
        };
        let Ok(mine) = Box::new(alloc, mine) else {
            return Err(BenchFault::Memory);
        };
        let mut note = row.note(number as usize);
        match row.put(number as usize, mine, &mut note) {
            Ok(()) => {
                self.push(note, next);
                Ok(true)
            }
            Err(back) => {
                let other = row.settled(number as usize, back, &mut note);
                let Ok(version) = self.next(alloc, other) else {
                    return Err(BenchFault::Memory);
                };
                self.push(note, version);
                Ok(false)
            }
        }
    }
}

/// Two notes of one box that know its edit know the same one.
fn agree(alloc: Global, mine: &Note<Edit>, other: &Note<Edit>)
    requires { other.now.cell ≡ mine.now.cell }
    ensures { IfSome other.now.known (Agrees mine.now.known) }
{
    let mut first = second(alloc, mine);
    first.compare(second(alloc, other));
}
