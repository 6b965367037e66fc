//! Workers that take legs from a bench, work them outside its lock and post them.
//!
//! Nothing is proved beyond safety: a worker has no call but a bench's.
//!
//! Contract: `serve`.
#![tactic(auto)]

use gw_bench::{Bench, Leg, Pass, RowName};
use std::alloc::{AllocError, Global};
use std::sync::Wait;
use std::thread::{self, Threads};

/// What stands between a worker's legs. `false` ends the worker; a leg in its hand is given up.
pub trait Gate {
    /// A worker has a leg of a replication.
    fn working(&self, worker: u64, replication: u64) -> bool;

    /// A worker found no leg, or memory was refused.
    fn idle(&self, worker: u64) -> bool;
}

/// Runs so many workers, and returns when all have ended. A thread that cannot be made is left out.
///
/// Worker w, from 0, starts at the w-th replication, counted round. It takes a leg, works `steps` steps of it and posts
/// it, and goes on to the next replication that has a leg and is in nobody's hand.
pub fn serve<N: RowName + Send + Sync, R: Threads + Wait + Sync, G: Gate + Sync>(
    rt: &R,
    alloc: Global,
    bench: &Bench<N>,
    workers: u64,
    steps: u64,
    gate: &G,
) {
    thread::scope(thread::scope_env(), rt, |scope| {
        for worker in 0..workers {
            let _ = scope.spawn(move || run(rt, alloc, bench, worker, steps, gate));
        }
    });
}

fn run<N: RowName, R: Wait, G: Gate>(
    rt: &R,
    alloc: Global,
    bench: &Bench<N>,
    worker: u64,
    steps: u64,
    gate: &G,
) {
    let Ok(mut pass) = bench.pass() else {
        return;
    };
    let mut place = worker;
    // How many edits stood in the row when no replication had a leg: until there is another, none can have one.
    let mut exhausted = None;
    'legs: for _ in rt.forever() {
        let seen = bench.versions(&mut pass).ok();
        let found = if seen.is_some() && seen == exhausted {
            Ok(Found::Nothing)
        } else {
            find(rt, bench, &mut pass, worker, &mut place)
        };
        let goes_on = match found {
            Ok(Found::Leg(rep, leg)) => {
                let goes_on = if gate.working(worker, rep) {
                    work(rt, alloc, bench, steps, leg) || gate.idle(worker)
                } else {
                    drop(leg);
                    false
                };
                bench.set_hand(worker, 0);
                goes_on
            }
            Ok(Found::Nothing) => {
                exhausted = seen;
                gate.idle(worker)
            }
            Ok(Found::Busy) | Err(_) => gate.idle(worker),
        };
        if !goes_on {
            break;
        }
    }
}

// What a worker finds in its round.
#[derive(Drop)]
enum Found<N: RowName> {
    Leg(u64, Leg<N>),
    // Each replication is in somebody's hand, or has no leg.
    Busy,
    // None has a leg.
    Nothing,
}

// The next leg from a place on, counted round; the place is then the one after it.
fn find<N: RowName, R: Wait>(
    rt: &R,
    bench: &Bench<N>,
    pass: &mut Pass<N>,
    worker: u64,
    place: &mut u64,
) -> Result<Found<N>, AllocError> {
    let mut is_busy = false;
    for _ in 0..pass.version().replications().len() {
        let Some(rep) = replication_at(pass, *place) else {
            return Ok(Found::Nothing);
        };
        *place = place.wrapping_add(1);
        if bench.is_in_hand(rep) {
            is_busy = true;
        } else {
            bench.set_hand(worker, rep);
            match bench.take(rt, pass, rep) {
                Ok(Some(leg)) => return Ok(Found::Leg(rep, leg)),
                Ok(None) => bench.set_hand(worker, 0),
                Err(refused) => {
                    bench.set_hand(worker, 0);
                    return Err(refused);
                }
            }
        }
    }
    if is_busy {
        Ok(Found::Busy)
    } else {
        Ok(Found::Nothing)
    }
}

// The number of the replication at a place, counted round.
fn replication_at<N: RowName>(pass: &Pass<N>, place: u64) -> Option<u64> {
    let replications = pass.version().replications();
    if replications.is_empty() {
        return None;
    }
    Some(replications[(place % replications.len() as u64) as usize].number)
}

// Works a leg and posts it, and says whether memory was there for both; else the leg is given up.
fn work<N: RowName, R: Wait>(
    rt: &R,
    alloc: Global,
    bench: &Bench<N>,
    steps: u64,
    mut leg: Leg<N>,
) -> bool {
    if leg.work(alloc, steps).is_ok() {
        bench.post(rt, leg).is_ok()
    } else {
        drop(leg);
        false
    }
}
