// Queries: with the recorded steps alone, or with those that are missing.
ghost use Rattle.std.specs.Prelude.{◌≡◌, ◌≤◌, Some, IfOk, IsSome};
ghost use Rattle.gw_meaning.specs.Listing.{seed_at, starts};
ghost use Rattle.gw_report.specs.Report.{text_of};
ghost use Rattle.gw_record.specs.Tape.{Tape};
ghost use Rattle.gw_desk.specs.Book.{run_in};
ghost use Rattle.gw_desk.specs.Looking.{Sees};
ghost use Rattle.gw_desk.specs.Peeking.{Peeks};
ghost use Rattle.gw_desk.specs.Texts.{AreTexts, answer_at, ready};

use crate::answer::{Answer, Report};
use crate::desk::Desk;
use crate::look::{Look, look_at};
use crate::recording::run_of;
use crate::texts::{Place, Texts};
use gw_expr::Row;
use gw_meaning::Outcome;
use gw_model::Version;
use gw_report::print;
use gw_state::State;
use std::alloc::{AllocError, Global};

impl Desk {
    /// The report of START `k` of a replication, from the recorded steps alone; or that they do not decide yet, that
    /// there is no such START or replication, or that the step limit decides nothing. It makes no step, and prints a
    /// report that is among the last 64 of its version no second time.
    pub fn peek(&mut self, alloc: Global, rep: u64, k: u64) -> Answer
        ensures peeks { Peeks self.old rep k result }
        ensures same { self.new ≡ self.old }
    {
        let Some(seed) = self.version.seed(rep) else {
            return Answer::NoReplication;
        };
        if k == 0 || self.version.starts() < k {
            return Answer::NoStart;
        }
        let Some(run) = self.run(rep) else {
            unreachable!()
        };
        match look_at(alloc, &self.version, seed, run, k) {
            Ok(look) => self.answer_look(alloc, rep, k, seed, look),
            Err(_) => Answer::Memory,
        }
    }

    // Answers what a look at a START that there is has found.
    pub(crate) fn answer_look(
        &mut self,
        alloc: Global,
        rep: u64,
        k: u64,
        seed: u64,
        look: Look,
    ) -> Answer
        requires some { 1 ≤ k }
        requires there { k ≤ starts self.old.version }
        requires seed { seed_at self.old.version rep ≡ Some seed }
        requires sees { (r : Tape) → run_in self.old.runs rep ≡ Some r → Sees self.old.version seed k r look }
        ensures peeks { Peeks self.old rep k result }
        ensures same { self.new ≡ self.old }
    {
        let Some(run) = run_of(self.runs.as_slice(), rep) else {
            unreachable!()
        };
        match look {
            Look::Point { moment, outcome } => {
                let Some(state) = run.state_at(moment) else {
                    unreachable!()
                };
                let place = Place {
                    edits: self.edits.len() as u64,
                    replication: rep,
                    start: k,
                };
                match text_at(alloc, &mut self.texts, &self.version, place, state, outcome) {
                    Ok(text) => Answer::Ready(Report {
                        edits: place.edits,
                        replication: rep,
                        start: k,
                        text,
                    }),
                    Err(_) => Answer::Memory,
                }
            }
            Look::NoStart => Answer::NoStart,
            Look::TooLong => Answer::TooLong,
            Look::Open => Answer::Unfinished {
                recorded: run.tip(),
            },
        }
    }
}

// The text of a report, with the state at its point: the one that is kept, or else a new one, of which a copy is kept
// where memory is there for it.
fn text_at(
    alloc: Global,
    texts: &mut Texts,
    version: &Version,
    place: Place,
    state: &State,
    outcome: Outcome,
) -> Result<Row<u8>, AllocError>
    requires seed { IsSome (seed_at version.now place.replication) }
    requires texts { AreTexts version.now place.edits texts.old }
    requires answer { answer_at version.now place ≡
        ready place (text_of version.now place.replication place.start state.now outcome) }
    ensures text { IfOk result (λ text. answer_at version.now place ≡ ready place text) }
    ensures texts { AreTexts version.now place.edits texts.new }
{
    if let Some(kept) = texts.at(place) {
        let text = Vec::from_slice(alloc, kept.as_slice())?;
        texts.use_again(place);
        return Ok(Row::from_vec(text));
    }
    let text = print(
        alloc,
        version,
        place.replication,
        place.start,
        state,
        outcome,
    )?;
    if let Ok(copy) = Vec::from_slice(alloc, text.as_slice()) {
        texts.put(place, Row::from_vec(copy));
    }
    Ok(Row::from_vec(text))
}
