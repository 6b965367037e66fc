// START, RESET, CLEAR and RMULT.
ghost use Rattle.std.specs.Prelude.{option_copied};
ghost use Rattle.gw_meaning.specs.Step.{move_prog, command_prog, start_prog, first_arrivals_prog};
ghost use Rattle.gw_asking.specs.Deciding.{Decides};

use gw_asking::{Notes, Run, ask_command, ask_generates};
use gw_expr::{End, Halt, Row};
use gw_meaning::{Arrival, Command, Move};
use gw_state::State;
use gw_values::{Context, arrivals, for_none};

// No START is under way: the next command.
#[cold]
#[inline(never)]
pub(crate) fn decide_command(state: &State, run: Run, notes: &mut Notes) -> Result<Move, Halt>
    ensures { Decides run.entry.version.now run.entry.seed (move_prog state.now 0) result notes.old notes.new }
{
    let next = state.commands().saturating_add(1);
    let command = ask_command(run.version, notes, next)?;
    command_move(state, run, notes, command)
}

fn command_move(
    state: &State,
    run: Run,
    notes: &mut Notes,
    command: Option<&Command>,
) -> Result<Move, Halt>
    ensures { Decides run.entry.version.now run.entry.seed
        (command_prog state.now (option_copied command.entry)) result notes.old notes.new }
{
    match command {
        Some(Command::Start { count }) => start(state, run, notes, *count),
        Some(Command::Reset) => Ok(Move::Reset),
        Some(Command::Clear) => Ok(Move::Clear),
        Some(Command::Rmult { values }) => {
            notes.set_streams(values.as_slice());
            Ok(Move::Command)
        }
        None => Err(Halt::End(End::CommandsDone)),
    }
}

// The START that primes the GENERATEs has their first transactions, any other none.
fn start(state: &State, run: Run, notes: &mut Notes, count: u64) -> Result<Move, Halt>
    ensures { Decides run.entry.version.now run.entry.seed (start_prog state.now state.now.primed count)
        result notes.old notes.new }
{
    if state.is_primed() {
        let arrivals = Row::from_vec(Vec::new(run.alloc));
        return Ok(Move::Start { count, arrivals });
    }
    let arrivals = first_arrivals(state, run, notes, count)?;
    Ok(Move::Start { count, arrivals })
}

fn first_arrivals(
    state: &State,
    run: Run,
    notes: &mut Notes,
    count: u64,
) -> Result<Row<Arrival>, Halt>
    ensures { Decides run.entry.version.now run.entry.seed (first_arrivals_prog state.now count)
        result notes.old notes.new }
{
    let ids = ask_generates(run.version, notes)?;
    let asker = &for_none(count);
    arrivals(Context { state, asker, run }, notes, ids)
}
