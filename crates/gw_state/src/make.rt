// The one place where a state changes: a move is made. All that grows is reserved first, so where memory is refused
// nothing changes.
ghost use Rattle.std.specs.Prelude.{◌≡◌, OnOk, OnErr};
ghost use Rattle.gw_meaning.specs.declared.moves.Move.TheVariants as moves;
ghost use Rattle.gw_meaning.specs.Changes.{moved, written, woken};
ghost use Rattle.gw_state.specs.Making.{IsMade};
ghost use Rattle.gw_state.specs.States.{machine_of};

use crate::parts::Parts;
use gw_expr::Row;
use gw_meaning::{Arrival, Destination, Move, StatementId, Transaction, Watched};
use gw_names::Key;
use gw_nums::Clock;
use std::alloc::{AllocError, Global};

impl Parts {
    // Makes a move and wakes those who wait for something that it writes, with the streams as they were.
    #[inline(always)]
    pub fn make(&mut self, alloc: Global, to: Move) -> Result<(), AllocError>
        requires { IsMade (machine_of self.old) to }
        ensures ok { OnOk result (machine_of self.new ≡
            woken (written (machine_of self.old) to) (moved (machine_of self.old) to)) }
        ensures err { OnErr result (machine_of self.new ≡ machine_of self.old) }
    {
        match to {
            Move::Start { count, arrivals } => self.begin(count, arrivals.as_slice()),
            Move::Command => {
                self.progress.count_command();
                Ok(())
            }
            Move::Reset => self.reset(alloc),
            Move::Clear => {
                self.clear(alloc);
                Ok(())
            }
            Move::Enter { id, change, fate } => self.enter(alloc, id, change, fate),
            Move::Refuse { id, key, units } => self.refuse(id, &key, units),
            Move::Watch { read } => self.watch(read),
            Move::Pick => {
                self.pick();
                Ok(())
            }
            Move::Clock { time } => self.go_on(time),
        }
    }

    // A START begins, with these first transactions.
    #[cold]
    #[inline(never)]
    fn begin(&mut self, count: u64, arrivals: &[Arrival]) -> Result<(), AllocError>
        ensures ok { OnOk result (machine_of self.new ≡ moved (machine_of self.old) (moves.Start count arrivals.now)) }
        ensures err { OnErr result (machine_of self.new ≡ machine_of self.old) }
    {
        self.future.reserve(arrivals.len())?;
        self.counts.reserve_all(arrivals)?;
        self.create_all(arrivals);
        self.progress.start(count);
        Ok(())
    }

    // A RESET: what is counted is counted anew, and who is where stays.
    #[cold]
    #[inline(never)]
    fn reset(&mut self, alloc: Global) -> Result<(), AllocError>
        ensures ok { OnOk result (machine_of self.new ≡ moved (machine_of self.old) moves.Reset) }
        ensures err { OnErr result (machine_of self.new ≡ machine_of self.old) }
    {
        let linked = self.linked.anew()?;
        self.entities.count_anew(alloc, self.clocks.clock())?;
        self.counts.count_anew();
        self.linked = linked;
        self.clocks.reset();
        self.progress.count_command();
        Ok(())
    }

    // A CLEAR: all begins anew but for what is done of the commands and for the streams.
    #[cold]
    #[inline(never)]
    fn clear(&mut self, alloc: Global)
        ensures { machine_of self.new ≡ moved (machine_of self.old) moves.Clear }
    {
        let streams = self.streams;
        let mut progress = self.progress;
        progress.clear();
        progress.count_command();
        *self = Parts::zero(alloc);
        self.streams = streams;
        self.progress = progress;
    }

    // The active transaction is refused at a block, and waits on the delay chain of a key for so many units.
    #[inline(never)]
    fn refuse(&mut self, id: StatementId, key: &Key, units: u32) -> Result<(), AllocError>
        ensures ok { OnOk result (machine_of self.new ≡ moved (machine_of self.old) (moves.Refuse id key.now units)) }
        ensures err { OnErr result (machine_of self.new ≡ machine_of self.old) }
    {
        let Some(x) = self.active.as_ref() else {
            return Ok(());
        };
        let bound = Transaction {
            destination: Destination::to(id),
            asked: units,
            ..*x
        };
        self.delays.line_up(key, bound)?;
        self.active = None;
        Ok(())
    }

    // The active transaction waits as it came for a change of something that its attempt read.
    #[inline(never)]
    fn watch(&mut self, read: Row<Watched>) -> Result<(), AllocError>
        ensures ok { OnOk result (machine_of self.new ≡ moved (machine_of self.old) (moves.Watch read)) }
        ensures err { OnErr result (machine_of self.new ≡ machine_of self.old) }
    {
        let Some(x) = self.active.as_ref() else {
            return Ok(());
        };
        self.retry.watch(*x, read)?;
        self.active = None;
        Ok(())
    }

    // The first of the current chain becomes active.
    #[inline(never)]
    fn pick(&mut self)
        ensures { machine_of self.new ≡ moved (machine_of self.old) moves.Pick }
    {
        if let Some(x) = self.current.take_first() {
            self.active = Some(x);
        }
    }

    // The clock moves on to the least time of the future chain, and those who are due stand on the current chain.
    #[inline(never)]
    fn go_on(&mut self, clock: Clock) -> Result<(), AllocError>
        requires { IsMade (machine_of self.old) (moves.Clock clock) }
        ensures ok { OnOk result (machine_of self.new ≡ moved (machine_of self.old) (moves.Clock clock)) }
        ensures err { OnErr result (machine_of self.new ≡ machine_of self.old) }
    {
        self.current.reserve(self.future.len())?;
        self.future.take_due(&mut self.current, clock.time());
        self.entities.go_on(self.clocks.clock(), clock);
        self.clocks.advance(clock);
        Ok(())
    }
}
