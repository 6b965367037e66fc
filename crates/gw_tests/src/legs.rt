use gw_desk::{Answer, Desk, Event, Reply};
use gw_expr::Row;
use gw_meaning::Edit;
use gw_script::{Options, open};
use std::alloc::{AllocError, Global};
use std::test::Fail;

// Its START 2 ends after 15 steps, and the states of moments 0, 4, 8 and 12 are kept on the way.
const MODEL: &[u8] = b"GENERATE 10\nADVANCE 3\nTERMINATE 1\nSTART 2\n";

const EVERY_FOURTH: Options = Options {
    seed: 1,
    horizon: 1_000_000_000,
    every: 4,
    limit: 1_000_000,
};

fn take(worker: u64) -> Event {
    Event::Take { worker, rep: 1 }
}

fn work(worker: u64, steps: u64) -> Event {
    Event::Work { worker, steps }
}

fn post(worker: u64) -> Event {
    Event::Post { worker }
}

fn peek() -> Event {
    Event::Peek { rep: 1, k: 1 }
}

fn finish() -> Event {
    Event::Finish { rep: 1, k: 1 }
}

fn change(alloc: Global, place: u64, text: &[u8]) -> Result<Event, AllocError> {
    let text = Row::from_vec(Vec::from_slice(alloc, text)?);
    Ok(Event::Edit(Edit::Change { place, text }))
}

fn insert(alloc: Global, place: u64, text: &[u8]) -> Result<Event, AllocError> {
    let text = Row::from_vec(Vec::from_slice(alloc, text)?);
    Ok(Event::Edit(Edit::Insert { place, text }))
}

fn word(alloc: Global, reply: &Reply) -> Result<String, AllocError> {
    match reply {
        Reply::Edited(n) => format!(in alloc; "edited {}; ", *n),
        Reply::Refused(_) => format!(in alloc; "refused; "),
        Reply::Took(Some(start)) => format!(in alloc; "took {}; ", *start),
        Reply::Took(None) => format!(in alloc; "took none; "),
        Reply::Worked(made) => format!(in alloc; "worked {}; ", *made),
        Reply::Posted => format!(in alloc; "posted; "),
        Reply::Dropped => format!(in alloc; "dropped; "),
        Reply::Answered(Answer::Ready(report)) => format!(in alloc; "ready {}; ", report.edits),
        Reply::Answered(Answer::Unfinished { recorded }) => {
            format!(in alloc; "unfinished {}; ", *recorded)
        }
        Reply::Answered(_) => format!(in alloc; "answered; "),
        Reply::Idle => format!(in alloc; "idle; "),
        Reply::Memory => format!(in alloc; "memory; "),
    }
}

// The replies to a list of events over a new desk, and how many steps are recorded then.
fn played(alloc: Global, events: Vec<Event>) -> Result<(String, Option<u64>), Fail> {
    let mut desk = open(alloc, MODEL, EVERY_FOURTH).ok().ok_or("no model")?;
    let text = told(alloc, &mut desk, events);
    let recorded = desk.recorded(1);
    drop(desk);
    Ok((text?, recorded))
}

fn told(alloc: Global, desk: &mut Desk, events: Vec<Event>) -> Result<String, Fail> {
    let replies = desk.play(alloc, events)?;
    let mut text = String::new(alloc);
    for reply in replies.as_slice() {
        text.push_str(&word(alloc, reply)?)?;
    }
    Ok(text)
}

#[test]
fn two_legs_over_an_edit(rt: HostRuntime) -> Result<(), Fail> {
    let alloc = rt.alloc();
    let edit = change(alloc, 3, b"TERMINATE")?;
    let events = [
        take(1),
        work(1, 8),
        post(1),
        take(1),
        work(1, 6),
        edit,
        take(2),
        work(2, 6),
        post(2),
        post(1),
    ];
    let (text, recorded) = played(alloc, Vec::from_array(alloc, events)?)?;
    assert_eq!(rt;
        text.as_str(),
        "took 0; worked 8; posted; took 8; worked 6; edited 1; took 4; worked 6; posted; dropped; "
    );
    assert_eq!(rt; recorded, Some(10));
    Ok(())
}

#[test]
fn a_leg_goes_on_after_an_insert(rt: HostRuntime) -> Result<(), Fail> {
    let alloc = rt.alloc();
    let edit = insert(alloc, 1, b"SEIZE Desk")?;
    let events = [
        take(1),
        work(1, 8),
        post(1),
        take(1),
        work(1, 6),
        edit,
        post(1),
    ];
    let (text, recorded) = played(alloc, Vec::from_array(alloc, events)?)?;
    assert_eq!(rt;
        text.as_str(),
        "took 0; worked 8; posted; took 8; worked 6; edited 1; posted; "
    );
    assert_eq!(rt; recorded, Some(14));
    Ok(())
}

#[test]
fn a_leg_is_posted_with_a_cut(rt: HostRuntime) -> Result<(), Fail> {
    let alloc = rt.alloc();
    let edit = change(alloc, 3, b"TERMINATE 2")?;
    let events = [take(1), work(1, 14), edit, post(1), peek()];
    let (text, recorded) = played(alloc, Vec::from_array(alloc, events)?)?;
    assert_eq!(rt;
        text.as_str(),
        "took 0; worked 14; edited 1; posted; unfinished 4; "
    );
    assert_eq!(rt; recorded, Some(4));
    Ok(())
}

#[test]
fn of_two_legs_the_longer_one_comes_later(rt: HostRuntime) -> Result<(), Fail> {
    let alloc = rt.alloc();
    let events = [
        take(1),
        take(2),
        work(1, 8),
        work(2, 12),
        post(1),
        post(2),
        peek(),
    ];
    let (text, recorded) = played(alloc, Vec::from_array(alloc, events)?)?;
    assert_eq!(rt;
        text.as_str(),
        "took 0; took 0; worked 8; worked 12; posted; posted; unfinished 12; "
    );
    assert_eq!(rt; recorded, Some(12));
    Ok(())
}

#[test]
fn of_two_legs_the_longer_one_comes_first(rt: HostRuntime) -> Result<(), Fail> {
    let alloc = rt.alloc();
    let events = [
        take(1),
        take(2),
        work(1, 8),
        work(2, 12),
        post(2),
        post(1),
        peek(),
    ];
    let (text, recorded) = played(alloc, Vec::from_array(alloc, events)?)?;
    assert_eq!(rt;
        text.as_str(),
        "took 0; took 0; worked 8; worked 12; posted; dropped; unfinished 12; "
    );
    assert_eq!(rt; recorded, Some(12));
    Ok(())
}

#[test]
fn a_leg_of_a_dropped_replication_is_dropped(rt: HostRuntime) -> Result<(), Fail> {
    let alloc = rt.alloc();
    let events = [
        take(1),
        work(1, 8),
        Event::Edit(Edit::Drop { replication: 1 }),
        Event::Edit(Edit::Replicate {
            replication: 1,
            seed: 5,
        }),
        post(1),
        peek(),
        finish(),
    ];
    let (text, _) = played(alloc, Vec::from_array(alloc, events)?)?;
    assert_eq!(rt;
        text.as_str(),
        "took 0; worked 8; edited 1; edited 2; dropped; unfinished 0; ready 2; "
    );
    Ok(())
}

#[test]
fn who_has_no_leg_is_idle(rt: HostRuntime) -> Result<(), Fail> {
    let alloc = rt.alloc();
    let events = [
        take(0),
        take(17),
        work(16, 1),
        post(3),
        take(16),
        work(16, 20),
        peek(),
        post(16),
        take(16),
        post(16),
    ];
    let (text, recorded) = played(alloc, Vec::from_array(alloc, events)?)?;
    assert_eq!(rt;
        text.as_str(),
        "idle; idle; idle; idle; took 0; worked 15; unfinished 0; posted; took none; idle; "
    );
    assert_eq!(rt; recorded, Some(15));
    Ok(())
}
