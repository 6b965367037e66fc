// What lies under the lock.
ghost use Rattle.std.specs.Prelude.{◌≡◌, ◌<◌, ◌≤◌, ◌⊎◌, [], length, None, Some, slice_get, slice_index};
ghost use Rattle.std.specs.Prelude.{IfOk, IfSome, MatchBool, OnErr, OnOk};
ghost use mathlib.Core.List.{IsPrefix};
ghost use Rattle.gw_meaning.specs.declared.edit.Edit.{Edit as AnEdit};
ghost use Rattle.gw_edit.specs.Leading.{accepted, version_of};
ghost use Rattle.gw_desk.specs.Book.{blank_runs};
ghost use Rattle.gw_desk.specs.declared.play.Event.TheVariants as events;
ghost use Rattle.gw_desk.specs.declared.play.Reply.TheVariants as replies;
ghost use Rattle.gw_desk.specs.Legs.{Takes};
ghost use Rattle.gw_desk.specs.Playing.{Tells};
ghost use Rattle.gw_desk.specs.Posting.{Posts};
ghost use Rattle.gw_bench.specs.Growing.{GrowsThen, IsGrown, IsOwn, Settles, TakesIn};
ghost use Rattle.gw_bench.specs.Telling.{IsAnswered, IsCount, IsFinished, IsUnworked};

use crate::leg::Leg;
use crate::pass::{Pass, RowName};
use crate::row::Row;
use gw_desk::{Answer, Desk, Post};
use gw_edit::EditFault;
use gw_meaning::Edit;
use gw_model::Version;
use once_cell::race::Note;
use std::alloc::{AllocError, Global};
use std::marker::Model;

/// What lies under the lock: a desk, and the pass whose edits it has taken in. Contracts see it as the front that it has
/// taken in and the desk's book.
#[derive(Drop)]
pub struct Held<N: RowName> {
    desk: Desk,
    pass: Pass<N>,
}

impl<N: RowName> Model for Held<N> {
    ghost use Rattle.gw_bench.specs.Growing.{Kept, IsHeld};

    ghost Value = { Kept };

    ghost view = { λ h. record { front = h.pass; book = h.desk } };

    ghost invariant = { λ h. IsHeld N.opening (record { front = h.pass; book = h.desk }) };
}

impl<N: RowName> Held<N> {
    /// What lies under the lock of a new bench: a desk with the opening version, and no edit taken in.
    pub fn new(alloc: Global, opening: Version, every: u64) -> Result<Held<N>, AllocError>
        requires every { 1 ≤ every }
        requires opening { opening ≡ N.opening }
        ensures front { IfOk result (λ held. held.front ≡ []) }
        ensures book { IfOk result (λ held. held.book ≡ record {
          opening = opening;
          version = opening;
          every = every;
          edits = [];
          runs = blank_runs every opening.replications;
          made = 0;
        }) }
    {
        let copy = opening.copy(alloc)?;
        Ok(Held {
            desk: Desk::new(alloc, copy, every)?,
            pass: Pass::new(alloc, opening)?,
        })
    }

    fn len(&self) -> u64
        ensures length { result ≡ length self.now.front }
        ensures fits { result ≤ 4096 }
    {
        self.pass.len()
    }

    fn note_again(&self, alloc: Global, number: u64) -> Note<Edit>
        requires { number < length self.now.front }
        ensures { (result.cell ≡ slice_index N.boxes number) × (result.known ≡ slice_get self.now.front number) }
    {
        self.pass.note_again(alloc, number)
    }

    fn meet(&self, alloc: Global, pass: &Pass<N>)
        ensures { IsPrefix self.now.front pass.now ⊎ IsPrefix pass.now self.now.front }
    {
        self.pass.meet(alloc, pass);
    }

    // Takes in the edit of the next box, by this note, and says whether there was one.
    fn take_one(
        &mut self,
        alloc: Global,
        row: &Row,
        mut note: Note<Edit>,
    ) -> Result<bool, AllocError>
        requires row { row.now ≡ N.boxes }
        requires room { (length self.old.front < length N.boxes) × (length self.old.front < 4096) }
        requires note { note.cell ≡ slice_index N.boxes (length self.old.front) }
        ensures ok { IfOk result (λ full.
            MatchBool full ((e : AnEdit) × TakesIn self.old e self.new) ((self.new ≡ self.old) × (note.known ≡ None))) }
        ensures err { OnErr result (self.new ≡ self.old) }
    {
        let Some(edit) = row.read(self.pass.len() as usize, &mut note) else {
            return Ok(false);
        };
        let version = self.pass.next(alloc, edit)?;
        let mine = edit.copy(alloc)?;
        settle(alloc, &mut self.desk, mine)?;
        self.pass.push(note, version);
        Ok(true)
    }

    // Takes over what the pass has seen, reads on to the first empty box, and brings the pass up to that.
    fn take_in(&mut self, alloc: Global, row: &Row, pass: &mut Pass<N>) -> Result<(), AllocError>
        requires { row.now ≡ N.boxes }
        ensures grown { IsGrown self.old self.new }
        ensures seen { IsPrefix pass.old pass.new }
        ensures ok { OnOk result (pass.new ≡ self.new.front) }
    {
        self.take_over(alloc, row, pass)?;
        self.read_on(alloc, row)?;
        self.hand_out(alloc, row, pass)
    }

    // Takes over what the pass has seen.
    fn take_over(&mut self, alloc: Global, row: &Row, pass: &Pass<N>) -> Result<(), AllocError>
        requires { row.now ≡ N.boxes }
        ensures grown { IsGrown self.old self.new }
        ensures ok { OnOk result (length pass.now ≤ length self.new.front) }
    {
        'notes: while self.len() < pass.len() {
            let number = self.len();
            let note = pass.note_again(alloc, number);
            let _rows = row.len();
            if !self.take_one(alloc, row, note)? {
                unreachable!();
            }
        }
        Ok(())
    }

    // Reads on to the first empty box.
    fn read_on(&mut self, alloc: Global, row: &Row) -> Result<(), AllocError>
        requires { row.now ≡ N.boxes }
        ensures { IsGrown self.old self.new }
    {
        'boxes: while (self.len() as usize) < row.len() {
            let note = row.note(self.len() as usize);
            if !self.take_one(alloc, row, note)? {
                break;
            }
        }
        Ok(())
    }

    // Brings a pass that has seen no more up to what was taken in.
    fn hand_out(&mut self, alloc: Global, row: &Row, pass: &mut Pass<N>) -> Result<(), AllocError>
        requires row { row.now ≡ N.boxes }
        requires less { length pass.old ≤ length self.old.front }
        ensures same { self.new ≡ self.old }
        ensures seen { IsPrefix pass.old pass.new }
        ensures ok { OnOk result (pass.new ≡ self.new.front) }
    {
        'notes: while pass.len() < self.len() {
            let number = pass.len();
            let note = self.note_again(alloc, number);
            let _rows = row.len();
            if !pass.read_with(alloc, row, note)? {
                unreachable!();
            }
        }
        self.meet(alloc, pass);
        Ok(())
    }

    /// The report of a START from the recorded steps, of the version of all edits that stand in the row: as of a
    /// [`Desk::peek`].
    pub fn peek(
        &mut self,
        alloc: Global,
        row: &Row,
        pass: &mut Pass<N>,
        rep: u64,
        k: u64,
    ) -> Result<Answer, AllocError>
        requires { row.now ≡ N.boxes }
        ensures seen { IsPrefix pass.old pass.new }
        ensures front { IfOk result (λ answer. pass.new ≡ self.new.front) }
        ensures ok { IfOk result (λ answer. GrowsThen self.old
            (λ b c. Tells b (events.Peek rep k) (replies.Answered answer) c) self.new) }
        ensures answer { IfOk result
            (IsAnswered (version_of N.opening pass.new) (length (accepted N.opening pass.new)) rep k) }
        ensures err { OnErr result (IsGrown self.old self.new) }
    {
        self.take_in(alloc, row, pass)?;
        Ok(self.desk.peek(alloc, rep, k))
    }

    /// The report of a START, with the steps that are missing, of the version of all edits that stand in the row: as of
    /// a [`Desk::finish`].
    pub fn finish(
        &mut self,
        alloc: Global,
        row: &Row,
        pass: &mut Pass<N>,
        rep: u64,
        k: u64,
    ) -> Result<Answer, AllocError>
        requires { row.now ≡ N.boxes }
        ensures seen { IsPrefix pass.old pass.new }
        ensures front { IfOk result (λ answer. pass.new ≡ self.new.front) }
        ensures ok { IfOk result (λ answer. GrowsThen self.old
            (λ b c. Tells b (events.Finish rep k) (replies.Answered answer) c) self.new) }
        ensures answer { IfOk result
            (IsFinished (version_of N.opening pass.new) (length (accepted N.opening pass.new)) rep k) }
        ensures err { OnErr result (IsGrown self.old self.new) }
    {
        self.take_in(alloc, row, pass)?;
        Ok(self.desk.finish(alloc, rep, k))
    }

    /// A leg of a replication, of the version of all edits that stand in the row: as of a [`Desk::take`].
    pub fn take(
        &mut self,
        alloc: Global,
        row: &Row,
        pass: &mut Pass<N>,
        rep: u64,
    ) -> Result<Option<Leg<N>>, AllocError>
        requires { row.now ≡ N.boxes }
        ensures grown { IsGrown self.old self.new }
        ensures seen { IsPrefix pass.old pass.new }
        ensures front { IfOk result (λ leg. pass.new ≡ self.new.front) }
        ensures takes { IfOk result (Takes self.new.book rep) }
        ensures leg { IfOk result (λ leg. IfSome leg (IsUnworked N.opening pass.new rep)) }
    {
        self.take_in(alloc, row, pass)?;
        match self.desk.take(alloc, rep)? {
            Some(leg) => Ok(Some(Leg::new(leg))),
            None => Ok(None),
        }
    }

    /// Takes a leg's steps in, if they fit: as of a [`Desk::post`]. The leg is given up.
    pub fn post(&mut self, alloc: Global, leg: Leg<N>) -> Result<Post, AllocError>
        ensures front { self.new.front ≡ self.old.front }
        ensures posts { IfOk result (λ post. Posts self.old.book leg post self.new.book) }
        ensures err { OnErr result (self.new ≡ self.old) }
    {
        self.desk.post_own(alloc, leg.into_leg())
    }

    // How many steps of a replication are recorded, of the version of all edits that stand in the row.
    pub(crate) fn recorded(
        &mut self,
        alloc: Global,
        row: &Row,
        pass: &mut Pass<N>,
        rep: u64,
    ) -> Result<Option<u64>, AllocError>
        requires { row.now ≡ N.boxes }
        ensures grown { IsGrown self.old self.new }
        ensures seen { IsPrefix pass.old pass.new }
        ensures front { IfOk result (λ count. pass.new ≡ self.new.front) }
        ensures count { IfOk result (λ count. IsCount (version_of N.opening pass.new) rep (Some count)) }
    {
        self.take_in(alloc, row, pass)?;
        self.desk.lemma_is_book();
        Ok(self.desk.recorded(rep))
    }
}

// Gives an edit of the row to a desk, which may refuse it.
fn settle(alloc: Global, desk: &mut Desk, edit: Edit) -> Result<(), AllocError>
    requires { length desk.old.edits < 4096 }
    ensures ok { OnOk result (Settles desk.old edit desk.new) }
    ensures err { OnErr result (desk.new ≡ desk.old) }
{
    match desk.edit(alloc, edit) {
        Ok(_) => Ok(()),
        Err(fault) => went_on(fault),
    }
}

// Whether a refused edit was refused by the version, and not for want of memory.
fn went_on(fault: EditFault) -> Result<(), AllocError>
    ensures { OnOk result (IsOwn fault) }
{
    match fault {
        EditFault::Memory => Err(AllocError),
        _ => Ok(()),
    }
}
