// What one thread does.
use crate::dice::Dice;
use gw_bench::{Bench, Leg, Pass, RowName};
use gw_desk::Answer;
use gw_expr::Row as Text;
use gw_meaning::Edit;
use gw_names::Name;
use std::alloc::Global;
use std::mem;
use std::sync::Wait;

/// How often a thread moves.
const MOVES: u64 = 12;

/// What was answered of a START, by how many edits the caller had seen then.
#[derive(Drop)]
pub(crate) struct Told {
    pub seen: u64,
    pub replication: u64,
    pub start: u64,
    pub answer: Answer,
}

/// What one thread was answered.
#[derive(Drop)]
pub(crate) struct Log {
    /// The edits that were accepted, with their numbers.
    pub edits: Vec<(u64, Edit)>,
    pub told: Vec<Told>,
}

/// Moves at random, and keeps what was answered: a call that is refused leaves nothing to keep. None where memory was
/// refused for what is kept.
pub(crate) fn moves<N: RowName, R: Wait>(
    rt: &R,
    alloc: Global,
    bench: &Bench<N>,
    seed: u64,
) -> Option<Log> {
    let mut dice = Dice::new(seed);
    let mut pass = bench.pass().ok()?;
    let mut log = Log {
        edits: Vec::new(alloc),
        told: Vec::new(alloc),
    };
    let mut leg = None;
    let mut goes_on = true;
    for _ in 0..MOVES {
        if goes_on {
            let moved = one_move(rt, alloc, bench, &mut dice, &mut pass, &mut log, &mut leg);
            goes_on = moved.is_some();
        }
    }
    drop(leg);
    drop(pass);
    if goes_on {
        Some(log)
    } else {
        drop(log);
        None
    }
}

// One move, which may give the leg in hand back or take one. An edit that is refused must stand in no box, also where it
// is refused for want of memory.
fn one_move<N: RowName, R: Wait>(
    rt: &R,
    alloc: Global,
    bench: &Bench<N>,
    dice: &mut Dice,
    pass: &mut Pass<N>,
    log: &mut Log,
    leg: &mut Option<Leg<N>>,
) -> Option<()> {
    let rep = dice.roll(4).saturating_add(1);
    let start = dice.roll(2).saturating_add(1);
    match dice.roll(9) {
        0..=2 => {
            let edit = any_edit(alloc, dice)?;
            let copy = edit.copy(alloc).ok()?;
            match bench.edit(pass, edit) {
                Ok(number) => log.edits.push((number, copy)).ok(),
                Err(_) => Some(()),
            }
        }
        3 => match bench.peek(rt, pass, rep, start) {
            Ok(answer) => log.told.push(tell(pass, rep, start, answer)).ok(),
            Err(_) => Some(()),
        },
        4 => match bench.finish(rt, pass, rep, start) {
            Ok(answer) => log.told.push(tell(pass, rep, start, answer)).ok(),
            Err(_) => Some(()),
        },
        5 | 6 => {
            if let Ok(taken) = bench.take(rt, pass, rep) {
                drop(mem::replace(leg, taken));
            }
            Some(())
        }
        7 => {
            if let Some(mine) = leg.take() {
                give(rt, alloc, bench, dice.roll(60), mine);
            }
            Some(())
        }
        _ => {
            let _ = bench.versions(pass);
            Some(())
        }
    }
}

// Works a leg and posts it.
fn give<N: RowName, R: Wait>(rt: &R, alloc: Global, bench: &Bench<N>, steps: u64, mut leg: Leg<N>) {
    if leg.work(alloc, steps).is_ok() {
        let _ = bench.post(rt, leg);
    } else {
        drop(leg);
    }
}

fn tell<N: RowName>(pass: &Pass<N>, replication: u64, start: u64, answer: Answer) -> Told {
    Told {
        seen: pass.len(),
        replication,
        start,
        answer,
    }
}

// An edit, which may be refused.
fn any_edit(alloc: Global, dice: &mut Dice) -> Option<Edit> {
    let place = dice.roll(8).saturating_add(1);
    let number = dice.roll(30).saturating_add(1);
    let replication = dice.roll(4).saturating_add(1);
    Some(match dice.roll(8) {
        0 => Edit::Change {
            place: 4,
            text: text(alloc, "ADVANCE", number)?,
        },
        1 => Edit::Change {
            place: 2,
            text: text(alloc, "GENERATE", number)?,
        },
        2 => Edit::Insert {
            place,
            text: text(alloc, "ADVANCE", number)?,
        },
        3 => Edit::Delete { place },
        4 => Edit::Seed {
            replication,
            seed: number,
        },
        5 => Edit::Replicate {
            replication,
            seed: number,
        },
        6 => Edit::Drop { replication },
        _ => Edit::Capacity {
            name: Name::read(alloc, b"Pool").ok()??,
            amount: number,
        },
    })
}

fn text(alloc: Global, verb: &str, number: u64) -> Option<Text<u8>> {
    let line = format!(in alloc; "{verb} {number},3").ok()?;
    Some(Text::from_vec(line.into_bytes()))
}
