// Edits of the version that is open.
ghost use Rattle.std.specs.Prelude.{◌≡◌, IfOk, IfErr, OnErr};
ghost use Rattle.gw_desk.specs.Book.{IsBook};
ghost use Rattle.gw_desk.specs.Editing.{Accepts, Refuses};

use crate::desk::Desk;
use crate::rebase::{add_missing, keep_those_of, rebase_all};
use gw_edit::{EditFault, apply, touch_of};
use gw_meaning::Edit;
use std::alloc::Global;

/// How many edits a desk accepts.
const HISTORY: usize = 4_096;

impl Desk {
    /// Edits the version, keeps the edit, and answers the number of accepted edits; or refuses, and changes nothing. Of
    /// each recorded run that stays it throws away only what lies after its last kept moment at or before the first
    /// step that read something touched. E8 comes before all else, at 4,096 accepted edits; E7 may come in place of
    /// any.
    pub fn edit(&mut self, alloc: Global, edit: Edit) -> Result<u64, EditFault>
        ensures accepted { IfOk result (Accepts self.old edit self.new) }
        ensures refused { IfErr result (Refuses self.old edit) }
        ensures err { OnErr result (self.new ≡ self.old) }
        ensures desk { IsBook self.new }
    {
        if self.edits.len() >= HISTORY {
            return Err(EditFault::HistoryFull);
        }
        let new = match apply(alloc, &self.version, &edit) {
            Ok(new) => new,
            Err(fault) => return Err(fault),
        };
        // (`and` in place of `?`: what stands here would be dropped, and proved, at each exit)
        let room = self.runs.reserve(new.replications().len());
        let room = room.and(self.edits.reserve(1));
        let touch = room.and(touch_of(&self.version, &edit, &new))?;
        new.lemma_ids_are_distinct();
        rebase_all(&mut self.runs, &self.version, &touch);
        drop(touch);
        add_missing(&mut self.runs, alloc, new.replications(), self.every);
        keep_those_of(&mut self.runs, &new);
        self.version = new;
        self.edits.push_reserved(edit);
        self.front = None;
        Ok(self.edits.len() as u64)
    }
}
