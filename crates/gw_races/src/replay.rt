// What a race was answered, beside runs from zero.
use crate::moves::Told;
use gw_desk::{Answer, Desk};
use gw_edit::{EditFault, same_version};
use gw_meaning::Edit;
use gw_model::Version;
use std::alloc::Global;

/// Whether the edits have the numbers from 1 on, each once, lead one after the other to the version that was seen last, and
/// each answer is that of a run from zero of the version of its number. None where memory was refused.
pub(crate) fn is_sound(
    alloc: Global,
    opening: Version,
    edits: &[(u64, Edit)],
    told: &[Told],
    last: &Version,
) -> Option<bool> {
    let count = edits.len() as u64;
    if told.iter().any(|told| told.seen > count) {
        drop(opening);
        return Some(false);
    }
    let mut desk = Desk::new(alloc, opening, 1_000).ok()?;
    let is_sound = leads(alloc, &mut desk, edits, told, last);
    drop(desk);
    is_sound
}

// Whether the edits lead a desk to the version that was seen last, past all that was answered.
fn leads(
    alloc: Global,
    desk: &mut Desk,
    edits: &[(u64, Edit)],
    told: &[Told],
    last: &Version,
) -> Option<bool> {
    for number in 0..=edits.len() as u64 {
        if number > 0 && !goes_on(alloc, desk, edits, number)? {
            return Some(false);
        }
        if !are_of(alloc, desk.version(), told, number)? {
            return Some(false);
        }
    }
    Some(same_version(desk.version(), last))
}

// Whether just one edit has this number, and a desk that took those before takes it.
fn goes_on(alloc: Global, desk: &mut Desk, edits: &[(u64, Edit)], number: u64) -> Option<bool> {
    let mut next = None;
    for (own, edit) in edits {
        if *own == number {
            if next.is_some() {
                return Some(false);
            }
            next = Some(edit);
        }
    }
    let Some(edit) = next else {
        return Some(false);
    };
    match desk.edit(alloc, edit.copy(alloc).ok()?) {
        Ok(taken) => Some(taken == number),
        Err(EditFault::Memory) => None,
        Err(_) => Some(false),
    }
}

// Whether what was answered of the version of a number is answered by a run from zero.
fn are_of(alloc: Global, version: &Version, told: &[Told], number: u64) -> Option<bool> {
    for told in told {
        if told.seen == number {
            match from_zero(alloc, version, told.replication, told.start)? {
                Answer::Memory => return None,
                answer if is_same(told, &answer) => {}
                _ => return Some(false),
            }
        }
    }
    Some(true)
}

// What a run from zero answers.
fn from_zero(alloc: Global, version: &Version, replication: u64, start: u64) -> Option<Answer> {
    let mut desk = Desk::new(alloc, version.copy(alloc).ok()?, 1_000).ok()?;
    let answer = desk.finish(alloc, replication, start);
    drop(desk);
    Some(answer)
}

fn is_same(told: &Told, zero: &Answer) -> bool {
    match (&told.answer, zero) {
        (Answer::Ready(report), Answer::Ready(run)) => {
            report.edits == told.seen
                && report.replication == told.replication
                && report.start == told.start
                && report.text.as_slice() == run.text.as_slice()
        }
        // The recorded steps may decide nothing, and memory may be refused.
        (Answer::Unfinished { recorded: _ } | Answer::Memory, _) => true,
        (Answer::NoStart, Answer::NoStart) => true,
        (Answer::TooLong, Answer::TooLong) => true,
        (Answer::NoReplication, Answer::NoReplication) => true,
        _ => false,
    }
}
