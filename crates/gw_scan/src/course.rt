// What comes of the move that a step decides: a state makes it, or, where it is only asked whether a step follows, it is
// let go.
ghost use Rattle.std.specs.Prelude.{◌≡◌, List, OnOk, OnErr};
ghost use Rattle.gw_streams.specs.declared.stream.Stream.{Stream};
ghost use Rattle.gw_meaning.specs.declared.moves.Move.{Move};
ghost use Rattle.gw_meaning.specs.Machine.{Machine};
ghost use Rattle.gw_meaning.specs.Changes.{decided};
ghost use Rattle.gw_state.specs.Making.{IsMade};

use gw_meaning::Move;
use gw_state::State;
use gw_streams::Streams;
use std::alloc::{AllocError, Global};

// A state that is asked, and what it makes of the move that a step of it decides.
pub trait Course {
    // The state that is asked.
    ghost machine: { Self → Machine };

    // What it makes of a move, with the streams after its draws.
    ghost makes: { Move → List Stream → Self → Self → Type 0 };

    // The state that is asked.
    fn state(&self) -> &State
        ensures { result.now ≡ machine self.now };

    // Makes of a move that was decided what it makes of it; or nothing where memory is refused.
    fn take(&mut self, alloc: Global, to: Move, streams: &Streams) -> Result<(), AllocError>
        requires { IsMade (machine self.old) to }
        ensures ok { OnOk result (makes to streams.now self.old self.new) }
        ensures err { OnErr result (self.new ≡ self.old) };
}

// A state makes it.
impl Course for State {
    ghost machine = { λ s. s };

    ghost makes = { λ to streams old new. new ≡ decided old to streams };

    #[inline(always)]
    fn state(&self) -> &State {
        self
    }

    #[inline(always)]
    fn take(&mut self, alloc: Global, to: Move, streams: &Streams) -> Result<(), AllocError> {
        self.make(alloc, to, streams)
    }
}

// A state that is only asked: the move is let go.
#[derive(Drop)]
pub struct Asked<'a> {
    pub state: &'a State,
}

impl<'a> Course for Asked<'a> {
    ghost machine = { λ s. s.state.now };

    ghost makes = { λ to streams old new. Unit {0} };

    #[inline(always)]
    fn state(&self) -> &State {
        self.state
    }

    #[inline(always)]
    fn take(&mut self, _alloc: Global, to: Move, _streams: &Streams) -> Result<(), AllocError> {
        drop(to);
        Ok(())
    }
}
