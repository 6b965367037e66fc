// What an evaluation of operands asks of a state, where it is kept besides what it reads that a block may write.
ghost use Rattle.std.specs.Prelude.{◌≡◌, OnOk};
ghost use Rattle.std.specs.Option.{option_to_list};
ghost use Rattle.gw_meaning.specs.Evaluation.{entity_watched, defined_watched, counts_watched, counts_of, watched_prog};
ghost use Rattle.gw_meaning.specs.Watching.{is_watched, with_watched, with_all_watched};
ghost use Rattle.gw_asking.specs.Deciding.{Decides};
ghost use Rattle.gw_values.specs.Tracing.{IsTracedStill, TracedReplies, attribute_traced, listed, with_read};

use crate::attributes::subject;
use crate::seen::Seen;
use gw_asking::{Notes, Run, ask_label};
use gw_expr::{Halt, Sna, Subject, World};
use gw_meaning::{EntityKind, StatementId, Watched};
use gw_names::{Class, Key, Name};
use gw_nums::{Millionths, Val};
use std::alloc::AllocError;

// What is seen, with the list of what was read of it, each thing once.
#[derive(Drop)]
pub struct Traced<'a> {
    pub seen: Seen<'a>,
    pub read: &'a mut Vec<Watched>,
}

impl<'a> World for Traced<'a> {
    ghost replies = { TracedReplies };

    fn number(&mut self, name: &Name) -> Result<Option<Val>, Halt> {
        self.seen.number(name)
    }

    fn attribute(&mut self, sna: Sna<'_>) -> Result<Val, Halt> {
        self.of_attribute(sna)
    }

    fn part(&mut self, of: &Subject) -> Result<Millionths, Halt> {
        self.seen.part(of)
    }

    fn note_variable(&mut self, name: &Name) -> Result<(), Halt> {
        self.seen.note_variable(name)
    }

    fn note_function(&mut self, name: &Name) -> Result<(), Halt> {
        self.seen.note_function(name)
    }
}

impl Traced<'_> {
    // The value of an attribute, with what it reads.
    fn of_attribute(&mut self, sna: Sna<'_>) -> Result<Val, Halt>
        ensures decided { Decides self.old.seen.context.run.version.now self.old.seen.context.run.seed
            (attribute_traced self.old.seen.context.state.now self.old.seen.context.asker.now self.old.read.now.items
            sna.entry.class sna.entry.of.now) (with_read result self.new.read.now.items)
            self.old.seen.notes.now self.new.seen.notes.now }
        ensures same { IsTracedStill self.old self.new }
    {
        let seen = &mut self.seen;
        let thing = watched(seen.context.run, seen.notes, sna.class, sna.of)?;
        let value = seen.attribute(sna)?;
        keep(self.read, thing)?;
        Ok(value)
    }
}

// What an attribute reads that a block may write.
#[tactic(auto, unfolding(gw_meaning::specs::Evaluation::watched_prog))]
fn watched(run: Run, notes: &mut Notes, class: Class, of: &Subject) -> Result<Option<Watched>, Halt>
    ensures { Decides run.entry.version.now run.entry.seed (watched_prog class of.now) (listed result)
        notes.old notes.new }
{
    match class {
        Class::F | Class::Fc => entity_watched(run, notes, EntityKind::Facility, of),
        Class::Q | Class::Qc => entity_watched(run, notes, EntityKind::Queue, of),
        Class::Qm | Class::Qz => entity_watched(run, notes, EntityKind::Queue, of),
        Class::X => entity_watched(run, notes, EntityKind::Savevalue, of),
        Class::Ls => entity_watched(run, notes, EntityKind::Switch, of),
        Class::Ch | Class::Cc => entity_watched(run, notes, EntityKind::UserChain, of),
        Class::S | Class::R => defined_watched(run, notes, EntityKind::Storage, of),
        Class::Sc | Class::Sm => defined_watched(run, notes, EntityKind::Storage, of),
        Class::Tc => defined_watched(run, notes, EntityKind::Table, of),
        Class::N | Class::W => counts_watched(run, notes, of),
        Class::C1 | Class::Ac1 | Class::Tg1 | Class::M1 | Class::Xn1 | Class::Pr => Ok(None),
        Class::P | Class::Rn | Class::V | Class::Fn => Ok(None),
    }
}

// The entity of a kind that an attribute is of.
fn entity_watched(
    run: Run,
    notes: &mut Notes,
    kind: EntityKind,
    of: &Subject,
) -> Result<Option<Watched>, Halt>
    ensures { Decides run.entry.version.now run.entry.seed (entity_watched kind of.now) (listed result)
        notes.old notes.new }
{
    let key = subject(run, notes, of)?;
    Ok(Some(Watched::Entity(kind, key)))
}

// The storage or the table that an attribute is of.
fn defined_watched(
    run: Run,
    notes: &mut Notes,
    kind: EntityKind,
    of: &Subject,
) -> Result<Option<Watched>, Halt>
    ensures { Decides run.entry.version.now run.entry.seed (defined_watched kind of.now) (listed result)
        notes.old notes.new }
{
    match of {
        Subject::Name(name) => {
            let key = Key::Defined(name.clone()?);
            Ok(Some(Watched::Entity(kind, key)))
        }
        _ => Ok(None),
    }
}

// The counts of the block that an attribute is of.
fn counts_watched(run: Run, notes: &mut Notes, of: &Subject) -> Result<Option<Watched>, Halt>
    ensures { Decides run.entry.version.now run.entry.seed (counts_watched of.now) (listed result)
        notes.old notes.new }
{
    match of {
        Subject::Name(name) => {
            let id = ask_label(run.version, notes, name)?;
            Ok(counts_of(id))
        }
        _ => Ok(None),
    }
}

fn counts_of(id: Option<StatementId>) -> Option<Watched>
    ensures { option_to_list result ≡ counts_of id }
{
    match id {
        Some(id) => Some(Watched::Counts(id)),
        None => None,
    }
}

// A thing comes after the others that were read, unless it is there.
fn keep(read: &mut Vec<Watched>, thing: Option<Watched>) -> Result<(), AllocError>
    ensures { OnOk result (read.new.items ≡ with_all_watched read.old.items (option_to_list thing)) }
{
    match thing {
        Some(thing) => keep_once(read, thing),
        None => Ok(()),
    }
}

/// A thing comes after the others that were read, unless it is there.
pub fn keep_once(read: &mut Vec<Watched>, thing: Watched) -> Result<(), AllocError>
    ensures { OnOk result (read.new.items ≡ with_watched read.old.items thing) }
{
    if is_in(read.as_slice(), &thing) {
        return Ok(());
    }
    read.push(thing)?;
    Ok(())
}

// Whether a thing stands in a list.
fn is_in(list: &[Watched], thing: &Watched) -> bool
    ensures { result ≡ is_watched list.now thing.now }
{
    list.iter().any(|other| *thing == *other)
}
