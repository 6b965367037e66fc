// A bench, as one session sees it.
ghost use Rattle.std.specs.Prelude.{◌≡◌, IfOk, length};
ghost use mathlib.Core.List.{IsPrefix};
ghost use Rattle.gw_edit.specs.Leading.{accepted, version_of};
ghost use Rattle.gw_bench.specs.Telling.{IsFinished};

use crate::bench::Bench;
use crate::fault::BenchFault;
use crate::pass::{Pass, RowName};
use gw_desk::{Answer, Keeper};
use gw_edit::EditFault;
use gw_meaning::{Edit, Numbered, Replication};
use std::alloc::{AllocError, Global};
use std::sync::Wait;

// The steps of a seat's first leg, where the kept states lie no further apart; a leg grows to so many times that.
const LEAST: u64 = 1_000;

const MOST: u64 = 4;

/// A bench, and what one caller has seen of it: a keeper of the version that the caller sees.
///
/// Its [`Keeper::finish`] makes the missing steps by legs, outside the lock, as the workers do.
#[derive(Drop)]
pub struct Seat<'a, N: RowName, R: Wait> {
    rt: &'a R,
    bench: &'a Bench<N>,
    pass: Pass<N>,
}

impl<'a, N: RowName, R: Wait> Seat<'a, N, R> {
    /// A seat at a bench, which has seen what this pass has.
    pub fn new(rt: &'a R, bench: &'a Bench<N>, pass: Pass<N>) -> Seat<'a, N, R>
        ensures { result.pass ≡ pass }
    {
        Seat { rt, bench, pass }
    }

    // Works a leg outside the lock, and posts it.
    fn help(&mut self, alloc: Global, rep: u64, steps: u64) -> Result<(), AllocError>
        ensures { IsPrefix self.old.pass self.new.pass }
    {
        let Some(mut leg) = self.bench.take(self.rt, &mut self.pass, rep)? else {
            return Ok(());
        };
        match leg.work(alloc, steps) {
            Ok(_) => {
                let _ = self.bench.post(self.rt, leg)?;
                Ok(())
            }
            Err(refused) => {
                drop(leg);
                Err(refused)
            }
        }
    }

    // The report of a START. The missing steps are made by legs, outside the lock; meanwhile workers leave the
    // replication alone.
    fn finished(&mut self, alloc: Global, rep: u64, k: u64) -> Result<Answer, AllocError>
        ensures seen { IsPrefix self.old.pass self.new.pass }
        ensures ok { IfOk result (IsFinished (version_of N.opening self.new.pass)
            (length (accepted N.opening self.new.pass)) rep k) }
    {
        let least = self.bench.every().max(LEAST);
        let most = least.saturating_mul(MOST);
        let mut steps = least;
        'legs: for _ in self.rt.forever() {
            match self.bench.peek(self.rt, &mut self.pass, rep, k)? {
                Answer::Unfinished { recorded: _ } => {
                    self.bench.set_seat(rep);
                    self.help(alloc, rep, steps)?;
                    steps = steps.saturating_mul(2).min(most);
                }
                answer => return Ok(answer),
            }
        }
        // (not reached: the loop has no end of its own)
        self.bench.finish(self.rt, &mut self.pass, rep, k)
    }
}

impl<'a, N: RowName, R: Wait> Keeper for Seat<'a, N, R> {
    ghost use Rattle.gw_edit.specs.Leading.{version_of};
    ghost use Rattle.gw_bench.specs.Telling.{SeatDoes, SeatWorks};
    ghost use Rattle.gw_bench.specs.Lost.{seat_does_nothing, seat_loses, seat_works_nothing};

    ghost version = { λ a. version_of N.opening a.pass };

    ghost does = { λ before event reply after. SeatDoes N.opening before.pass event reply after.pass };

    ghost works = { λ before rep steps answer after. SeatWorks N.opening before.pass rep steps answer after.pass };

    ghost in_vain = { λ a event is. seat_does_nothing N.opening a.pass event is };

    ghost worked_in_vain = { λ a rep steps. seat_works_nothing N.opening a.pass rep steps };

    ghost lost = { λ a b event answer does. seat_loses N.opening a.pass b.pass event answer does };

    fn list(&self) -> &[Numbered] {
        self.pass.version().lines()
    }

    fn replications(&self) -> &[Replication] {
        self.pass.version().replications()
    }

    fn edit(&mut self, _alloc: Global, edit: Edit) -> Result<u64, EditFault> {
        match self.bench.edit(&mut self.pass, edit) {
            Ok(number) => Ok(number),
            Err(BenchFault::HistoryFull) => Err(EditFault::HistoryFull),
            Err(BenchFault::Refused(fault, _)) => Err(fault),
            Err(BenchFault::Memory) => Err(EditFault::Memory),
        }
    }

    fn peek(&mut self, _alloc: Global, rep: u64, k: u64) -> Answer {
        match self.bench.peek(self.rt, &mut self.pass, rep, k) {
            Ok(answer) => answer,
            Err(_) => Answer::Memory,
        }
    }

    fn finish(&mut self, alloc: Global, rep: u64, k: u64) -> Answer {
        let answer = self.finished(alloc, rep, k);
        self.bench.set_seat(0);
        match answer {
            Ok(answer) => answer,
            Err(_) => Answer::Memory,
        }
    }

    fn work(&mut self, alloc: Global, rep: u64, steps: u64) -> Result<Option<u64>, AllocError> {
        self.help(alloc, rep, steps)?;
        self.bench.recorded(self.rt, &mut self.pass, rep)
    }
}
