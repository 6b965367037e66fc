// Lists of events: edits, queries and legs, one after another.
ghost use Rattle.std.specs.Prelude.{◌≡◌, None, IfOk, OnErr, length, option_map, replicate};
ghost use Rattle.gw_edit.specs.Spelled.{AreSpelled};
ghost use Rattle.gw_desk.specs.Book.{IsBook};
ghost use Rattle.gw_desk.specs.Headline.{AreRight, IsAnew, IsPrinted};
ghost use Rattle.gw_desk.specs.Ledger.{place_of};
ghost use Rattle.gw_desk.specs.Legs.{Leg as ALeg};
ghost use Rattle.gw_desk.specs.Playing.{Moves, Plays};
ghost use Rattle.gw_desk.specs.Workers.{TakesAt, WorksAt, PostsAt};

use crate::answer::Answer;
use crate::desk::Desk;
use crate::leg::Leg;
use crate::post::Post;
use gw_edit::EditFault;
use gw_meaning::Edit;
use std::alloc::{AllocError, Global};
use std::mem;

/// How many workers there may be.
const WORKERS: usize = 16;

/// What a planner does, or a worker, 1 to 16.
#[derive(Drop)]
pub enum Event {
    Edit(Edit),
    /// The worker gives up his leg and takes one of a replication.
    Take { worker: u64, rep: u64 },
    /// He makes steps of it.
    Work { worker: u64, steps: u64 },
    /// He gives it to the desk.
    Post { worker: u64 },
    /// A query from the recorded steps alone.
    Peek { rep: u64, k: u64 },
    /// A query with the steps that are missing.
    Finish { rep: u64, k: u64 },
}

/// What an event is answered.
#[derive(Drop)]
pub enum Reply {
    /// The edit is accepted, as the one with this number.
    Edited(u64),
    Refused(EditFault),
    /// Where the leg starts, if one was given.
    Took(Option<u64>),
    /// So many steps were made: all that were asked for, or those up to the step limit or to the run's end; fewer where
    /// a growth was refused, which this reply does not tell.
    Worked(u64),
    Posted,
    Dropped,
    Answered(Answer),
    /// There is no such worker, or he has no leg.
    Idle,
    /// A growth was refused.
    Memory,
}

impl Desk {
    /// Makes the calls of these events, in order, and answers one reply for each: each report handed out is that of the
    /// version made anew from its statements, run from zero; where the model was read, that is the model that `list`
    /// prints. Nobody has a leg at the beginning, and those left at the end are given up. Where memory is refused for
    /// the list of replies or for the workers' places, nothing is done.
    pub fn play(&mut self, alloc: Global, events: Vec<Event>) -> Result<Vec<Reply>, AllocError>
        ensures plays { IfOk result (λ replies. Plays self.old events.items replies.items self.new) }
        ensures right { IfOk result (λ replies. AreRight IsAnew self.old.version (length self.old.edits)
            events.items replies.items) }
        ensures printed { AreSpelled self.old.version.lines → IfOk result (λ replies.
            AreRight IsPrinted self.old.version (length self.old.edits) events.items replies.items) }
        ensures err { OnErr result (self.new ≡ self.old) }
    {
        self.lemma_is_book();
        let mut replies = Vec::with_capacity(alloc, events.len())?;
        let mut legs = no_legs(alloc)?;
        for event in events {
            let reply = self.play_one(alloc, legs.as_mut_slice(), event);
            match replies.push(reply) {
                Ok(()) => (),
                Err(_) => unreachable!(),
            }
        }
        Ok(replies)
    }

    fn play_one(&mut self, alloc: Global, legs: &mut [Option<Leg>], event: Event) -> Reply
        requires { length legs.old ≡ 16 }
        ensures moves { Moves (record { book = self.old; legs = legs.old }) event result
            (record { book = self.new; legs = legs.new }) }
        ensures count { length legs.new ≡ 16 }
    {
        match event {
            Event::Edit(edit) => match self.edit(alloc, edit) {
                Ok(number) => Reply::Edited(number),
                Err(fault) => Reply::Refused(fault),
            },
            Event::Take { worker, rep } => match place_of(worker) {
                Some(place) => self.take_at(alloc, &mut legs[place], rep),
                None => Reply::Idle,
            },
            Event::Work { worker, steps } => match place_of(worker) {
                Some(place) => work_at(alloc, &mut legs[place], steps),
                None => Reply::Idle,
            },
            Event::Post { worker } => match place_of(worker) {
                Some(place) => self.post_at(alloc, &mut legs[place]),
                None => Reply::Idle,
            },
            Event::Peek { rep, k } => Reply::Answered(self.peek(alloc, rep, k)),
            Event::Finish { rep, k } => Reply::Answered(self.finish(alloc, rep, k)),
        }
    }

    // A worker gives up the leg that he has, if he has one, and takes one of a replication.
    fn take_at(&mut self, alloc: Global, leg: &mut Option<Leg>, rep: u64) -> Reply
        ensures took { TakesAt self.old rep result leg.new }
        ensures same { self.new ≡ self.old }
    {
        drop(leg.take());
        match self.take(alloc, rep) {
            Ok(taken) => {
                let start = start_of(&taken);
                drop(mem::replace(leg, taken));
                Reply::Took(start)
            }
            Err(_) => Reply::Memory,
        }
    }

    // A worker gives the leg that he has to the desk.
    fn post_at(&mut self, alloc: Global, leg: &mut Option<Leg>) -> Reply
        ensures posts { PostsAt self.old leg.old result self.new }
        ensures gone { leg.new ≡ None }
        ensures desk { IsBook self.new }
    {
        self.lemma_is_book();
        let Some(own) = leg.take() else {
            return Reply::Idle;
        };
        match self.post(alloc, own) {
            Ok(Post::Posted) => Reply::Posted,
            Ok(Post::Dropped) => Reply::Dropped,
            Err(_) => Reply::Memory,
        }
    }
}

// Where a leg starts, if there is one.
fn start_of(leg: &Option<Leg>) -> Option<u64>
    ensures { result ≡ option_map (λ (l : ALeg). l.run.start) leg.now }
{
    match leg {
        Some(leg) => Some(leg.start()),
        None => None,
    }
}

// A worker makes steps of the leg that he has.
fn work_at(alloc: Global, leg: &mut Option<Leg>, steps: u64) -> Reply
    ensures { WorksAt steps leg.old result leg.new }
{
    let Some(own) = leg else {
        return Reply::Idle;
    };
    let before = own.end();
    match own.work(alloc, steps) {
        Ok(made) => Reply::Worked(made),
        Err(_) => Reply::Worked(own.end() - before),
    }
}

// Where the leg of a worker lies, if there is such a worker.
fn place_of(worker: u64) -> Option<usize>
    ensures place { result ≡ place_of worker }
{
    if 1 <= worker && worker <= WORKERS as u64 {
        Some((worker - 1) as usize)
    } else {
        None
    }
}

// Nobody has a leg.
fn no_legs(alloc: Global) -> Result<Vec<Option<Leg>>, AllocError>
    ensures { IfOk result (λ legs. legs.items ≡ replicate 16 None) }
{
    let mut legs = Vec::with_capacity(alloc, WORKERS)?;
    for _ in 0..WORKERS {
        legs.push(None)?;
    }
    Ok(legs)
}
