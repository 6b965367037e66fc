// What keeps a version open for a session.
ghost use Rattle.std.specs.Prelude.{◌≡◌, ℕ, true, Option, None, Some, IfOk, IfErr, OnErr};
ghost use Rattle.gw_meaning.specs.Listing.{Listing};
ghost use Rattle.gw_desk.specs.declared.answer.Answer.TheVariants as answers;
ghost use Rattle.gw_desk.specs.declared.play.Event.TheVariants as events;
ghost use Rattle.gw_desk.specs.declared.play.Reply.TheVariants as replies;
ghost use Rattle.gw_desk.specs.Keeping.{is_of_desk, wants_memory};
ghost use Rattle.gw_desk.specs.Lost.{does_nothing, loses, works_nothing};
ghost use Rattle.gw_desk.specs.Playing.{Does};
ghost use Rattle.gw_desk.specs.Working.{WorksOn};

use crate::answer::Answer;
use crate::desk::Desk;
use gw_edit::EditFault;
use gw_meaning::{Edit, Numbered, Replication};
use std::alloc::{AllocError, Global};

/// Keeps a version of a model open, edits it and answers queries of it.
///
/// `version a` is the version of a keeper in the state `a`, and `does a event reply b` says that an event may be
/// answered so, and what that leaves. `works a rep steps count b` says the same of a call of [`Keeper::work`]: the count
/// that is answered, or that memory was refused. A [`Desk`] does what its own calls do, and no one else edits it.
pub trait Keeper {
    ghost use Rattle.gw_desk.specs.declared.answer.Answer.{Answer};
    ghost use Rattle.gw_desk.specs.declared.play.Event.{Event};
    ghost use Rattle.gw_desk.specs.declared.play.Reply.{Reply};

    ghost version: { Self → Listing };

    ghost does: { Self → Event → Reply → Self → Type 0 };

    ghost works: { Self → ℕ → ℕ → Option (Option ℕ) → Self → Type 0 };

    /// The statements of the version, in order.
    fn list(&self) -> &[Numbered]
        ensures { result.now ≡ (version self.now).lines };

    /// The replications of the version, in order.
    fn replications(&self) -> &[Replication]
        ensures { result.now ≡ (version self.now).replications };

    /// Edits the version, and returns the number of accepted edits.
    ///
    /// # Errors
    ///
    /// Why the edit is refused: as of a [`Desk::edit`].
    fn edit(&mut self, alloc: Global, edit: Edit) -> Result<u64, EditFault>
        ensures accepted { IfOk result (λ n. does self.old (events.Edit edit) (replies.Edited n) self.new) }
        ensures refused { IfErr result (λ fault. does self.old (events.Edit edit) (replies.Refused fault) self.new) };

    /// The report of START `k` of a replication, from the recorded steps alone: as of a [`Desk::peek`].
    fn peek(&mut self, alloc: Global, rep: u64, k: u64) -> Answer
        ensures { does self.old (events.Peek rep k) (replies.Answered result) self.new };

    /// The report of START `k` of a replication, with the steps that are missing: as of a [`Desk::finish`].
    fn finish(&mut self, alloc: Global, rep: u64, k: u64) -> Answer
        ensures { does self.old (events.Finish rep k) (replies.Answered result) self.new };

    /// Makes up to so many steps of a replication's run, and returns how many are recorded then; none where there is no
    /// such replication.
    ///
    /// # Errors
    ///
    /// Memory was refused.
    fn work(&mut self, alloc: Global, rep: u64, steps: u64) -> Result<Option<u64>, AllocError>
        ensures ok { IfOk result (λ count. works self.old rep steps (Some count) self.new) }
        ensures err { OnErr result (works self.old rep steps None self.new) };

    // Any call of the desk alone may be answered out of memory, with nothing changed.
    ghost in_vain: { (a : Self) (event : Event) → is_of_desk event ≡ true → does a event (wants_memory event) a };

    ghost worked_in_vain: { (a : Self) (rep steps : ℕ) → works a rep steps None a };

    // An answer may be lost where memory is refused for telling it.
    ghost lost: { (a b : Self) (event : Event) (answer : Answer) → does a event (replies.Answered answer) b →
        does a event (replies.Answered answers.Memory) b };
}

impl Keeper for Desk {
    ghost version = { λ b. b.version };

    ghost does = { Does };

    ghost works = { WorksOn };

    ghost in_vain = { does_nothing };

    ghost worked_in_vain = { works_nothing };

    ghost lost = { loses };

    fn list(&self) -> &[Numbered] {
        self.version.lines()
    }

    fn replications(&self) -> &[Replication] {
        self.version.replications()
    }

    fn edit(&mut self, alloc: Global, edit: Edit) -> Result<u64, EditFault> {
        Desk::edit(self, alloc, edit)
    }

    fn peek(&mut self, alloc: Global, rep: u64, k: u64) -> Answer {
        Desk::peek(self, alloc, rep, k)
    }

    fn finish(&mut self, alloc: Global, rep: u64, k: u64) -> Answer {
        Desk::finish(self, alloc, rep, k)
    }

    fn work(&mut self, alloc: Global, rep: u64, steps: u64) -> Result<Option<u64>, AllocError> {
        self.work_on(alloc, rep, steps)?;
        Ok(self.recorded(rep))
    }
}
