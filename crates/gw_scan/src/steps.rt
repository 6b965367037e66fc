// One step, and the end that stands in its place.
ghost use Rattle.std.specs.Prelude.{◌≡◌, IfOk, OnErr};
ghost use Rattle.gw_meaning.specs.Step.{move_prog, step, step_items};
ghost use Rattle.gw_scan.specs.Stepping.{Acts, Steps, Counts, EndsAs, Follows, Halts};
ghost use Rattle.gw_asking.specs.Noted.{Forgets};

use crate::course::Asked;
use crate::decide::go_on;
use crate::tally::Tally;
use gw_asking::{Notes, Run};
use gw_expr::{End, Halt};
use gw_model::Version;
use gw_state::State;
use std::alloc::{AllocError, Global};

/// What a step came to.
#[derive(Clone, Copy)]
pub enum Turn {
    /// The state moved on.
    Moved,
    /// The run ends here, and nothing changed.
    Ended(End),
}

/// Makes the step of the version with this seed, notes the items that it reads and counts it; or says why
/// none follows. An end, and a refused growth, changes nothing, and nothing stays noted of the step. Between
/// steps the notes and the state have the same streams.
pub fn step(
    alloc: Global,
    version: &Version,
    seed: u64,
    state: &mut State,
    notes: &mut Notes,
    tally: &mut Tally,
) -> Result<Turn, AllocError>
    requires { notes.old.streams ≡ state.old.streams }
    ensures told { IfOk result (λ turn. Steps (step version.now seed state.old) turn state.old state.new) }
    ensures notes { IfOk result (λ turn. Follows turn (step_items version.now seed state.old) notes.old notes.new) }
    ensures streams { notes.new.streams ≡ state.new.streams }
    ensures tally { IfOk result (λ turn. Counts turn tally.old tally.new) }
    ensures err { OnErr result ((state.new ≡ state.old) × (tally.new ≡ tally.old)) }
    ensures forgets { OnErr result (Forgets notes.old.step notes.old.streams notes.old notes.new) }
{
    let run = Run {
        alloc,
        version,
        seed,
    };
    match act(state, run, notes) {
        Ok(()) => {
            tally.raise();
            Ok(Turn::Moved)
        }
        Err(halt) => halted(halt, state, notes),
    }
}

// No step was made: what it read is forgotten.
#[cold]
#[inline(never)]
fn halted(halt: Halt, state: &State, notes: &mut Notes) -> Result<Turn, AllocError>
    ensures told { Halts halt result }
    ensures notes { Forgets notes.old.step state.now.streams notes.old notes.new }
{
    notes.forget(state.streams());
    match halt {
        Halt::End(end) => Ok(Turn::Ended(end)),
        Halt::Memory => Err(AllocError),
    }
}

// Makes the next move; or says why none follows, and then nothing changes.
#[inline(always)]
fn act(state: &mut State, run: Run, notes: &mut Notes) -> Result<(), Halt>
    ensures { Acts run.entry.version.now run.entry.seed (move_prog state.old state.old.remaining)
        result state.old state.new notes.old notes.new }
{
    go_on(state, run, notes)
}

/// The end that a step would come to here, or `None` where the run goes on: no move is made.
pub fn end_at(
    alloc: Global,
    version: &Version,
    seed: u64,
    state: &State,
) -> Result<Option<End>, AllocError>
    ensures { IfOk result (EndsAs (step version.now seed state.now)) }
{
    let run = Run {
        alloc,
        version,
        seed,
    };
    let mut notes = Notes::new(alloc, state.streams());
    let mut asked = Asked { state };
    let decided = go_on(&mut asked, run, &mut notes);
    drop(notes);
    match decided {
        Ok(()) => Ok(None),
        Err(Halt::End(end)) => Ok(Some(end)),
        Err(Halt::Memory) => Err(AllocError),
    }
}
