// None is active: the first of the current chain is picked, or the clock moves on.
ghost use Rattle.gw_meaning.specs.Step.{pick_prog, clock_prog, least_time};
ghost use Rattle.gw_asking.specs.Deciding.{Decides};

use gw_asking::{Notes, Run, ask_within};
use gw_expr::{End, Halt};
use gw_meaning::Move;
use gw_state::State;

// The first of the current chain, or else the clock.
#[inline(always)]
pub(crate) fn decide_scan(state: &State, run: Run, notes: &mut Notes) -> Result<Move, Halt>
    ensures { Decides run.entry.version.now run.entry.seed (pick_prog state.now state.now.current)
        result notes.old notes.new }
{
    if state.current().is_empty() {
        return decide_clock(state, run, notes);
    }
    Ok(Move::Pick)
}

// The clock moves on to the least time of the future chain, where that lies within the horizon.
#[inline(always)]
fn decide_clock(state: &State, run: Run, notes: &mut Notes) -> Result<Move, Halt>
    ensures { Decides run.entry.version.now run.entry.seed (clock_prog (least_time state.now.future))
        result notes.old notes.new }
{
    let Some(time) = state.future().least_time() else {
        return Err(Halt::End(End::Dry));
    };
    match ask_within(run.version, notes, time)? {
        Some(time) => Ok(Move::Clock { time }),
        None => Err(Halt::End(End::Horizon)),
    }
}
