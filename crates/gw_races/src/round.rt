// A race, and what comes of it.
ghost use Rattle.std.specs.Prelude.{◌≡◌};

use crate::model::version;
use crate::moves::{Told, moves};
use crate::replay::is_sound;
use gw_bench::{Bench, Pass, Row, RowName};
use gw_meaning::Edit;
use gw_model::Version;
use std::alloc::Global;
use std::marker::Brand;
use std::sync::Wait;
use std::thread::{self, Threads};

const THREADS: usize = 16;

// A few come at random to a storage of two places.
const MODEL: &str =
    "Pool STORAGE 2\nGENERATE 10,5\nENTER Pool\nADVANCE 12,3\nLEAVE Pool\nTERMINATE 1\nSTART 6\nSTART 4\n";

// An edit may let the model run on without an end.
const LIMIT: u64 = 500;

/// How a round ended.
pub(crate) enum Outcome {
    Well,
    Wrong,
    Memory,
}

/// Sixteen threads race over a small model; the moves are those of the round's number.
pub(crate) fn round<R: Threads + Wait + Sync>(rt: &R, alloc: Global, number: u64) -> Outcome {
    let Some(opening) = version(alloc, MODEL, LIMIT, 3) else {
        return Outcome::Memory;
    };
    let Ok(row) = Row::new(alloc) else {
        return Outcome::Memory;
    };
    match race::<Brand, R>(rt, alloc, row, opening, number) {
        Some(true) => Outcome::Well,
        Some(false) => Outcome::Wrong,
        None => Outcome::Memory,
    }
}

fn race<N: RowName + Send + Sync, R: Threads + Wait + Sync>(
    rt: &R,
    alloc: Global,
    row: Row,
    opening: Version,
    number: u64,
) -> Option<bool>
    requires row { row ≡ N.boxes }
    requires opening { opening ≡ N.opening }
{
    let Ok(start) = opening.copy(alloc) else {
        drop(row);
        drop(opening);
        return None;
    };
    let Ok(bench) = Bench::<N>::new(alloc, row, opening, 8) else {
        drop(start);
        return None;
    };
    let is_sound = raced(rt, alloc, &bench, start, number);
    drop(bench);
    is_sound
}

// The race over a bench of this version.
fn raced<N: RowName + Send + Sync, R: Threads + Wait + Sync>(
    rt: &R,
    alloc: Global,
    bench: &Bench<N>,
    start: Version,
    number: u64,
) -> Option<bool> {
    let Some((edits, mut told)) = answered(rt, alloc, bench, number) else {
        drop(start);
        return None;
    };
    // Nothing is lost: a pass that was told nothing sees all, and is answered of it.
    let Some(last) = asked_last(rt, bench, edits.len() as u64, &mut told) else {
        drop(start);
        return None;
    };
    let is_sound = is_sound(
        alloc,
        start,
        edits.as_slice(),
        told.as_slice(),
        last.version(),
    );
    drop(last);
    is_sound
}

// All that the threads were answered.
fn answered<N: RowName + Send + Sync, R: Threads + Wait + Sync>(
    rt: &R,
    alloc: Global,
    bench: &Bench<N>,
    number: u64,
) -> Option<(Vec<(u64, Edit)>, Vec<Told>)> {
    let seed = number.wrapping_mul(THREADS as u64);
    let racing = |thread: usize| moves(rt, alloc, bench, seed.wrapping_add(thread as u64));
    let logs = thread::map_indices(rt, alloc, THREADS, &racing).ok()?;
    let mut edits = Vec::new(alloc);
    let mut told = Vec::new(alloc);
    for log in logs {
        let log = log?;
        for edit in log.edits {
            edits.push(edit).ok()?;
        }
        for answer in log.told {
            told.push(answer).ok()?;
        }
    }
    Some((edits, told))
}

// Asks for each replication, as somebody who was told nothing.
fn asked_last<N: RowName, R: Wait>(
    rt: &R,
    bench: &Bench<N>,
    seen: u64,
    told: &mut Vec<Told>,
) -> Option<Pass<N>> {
    let mut last = bench.pass().ok()?;
    for replication in 1..=4 {
        if ask(rt, bench, &mut last, seen, replication, told).is_none() {
            drop(last);
            return None;
        }
    }
    Some(last)
}

fn ask<N: RowName, R: Wait>(
    rt: &R,
    bench: &Bench<N>,
    pass: &mut Pass<N>,
    seen: u64,
    replication: u64,
    told: &mut Vec<Told>,
) -> Option<()> {
    let answer = bench.finish(rt, pass, replication, 1).ok()?;
    told.push(Told {
        seen,
        replication,
        start: 1,
        answer,
    })
    .ok()
}
