ghost use Rattle.std.specs.Prelude.{◌≡◌, ◌≢◌, ◌<◌, ◌∷◌, ◌++◌, [], List, length, Ok, IfOk, IfErr, All, false};
ghost use Rattle.std.specs.Result.{result_and};
ghost use Rattle.gw_lines.specs.Pairs.{wants_pairs};
ghost use Rattle.gw_lines.specs.Reading.{GivesModel};
ghost use Rattle.gw_lines.specs.Whole.{SpellsModel, FirstFaultOf, AnswersAt};
ghost use Rattle.gw_lines.specs.Models.{lines_of, model_of, numbered, with_line, done_of, under_way, ended, chomped};

use crate::class::{Class, piece};
use crate::fault::{FaultyLine, LineFault};
use crate::line::read_line;
use crate::pairs::{read_further, wants_pairs};
use gw_meaning::Statement;
use std::alloc::Global;

/// The statements of a model in the order of its lines, or its first faulty line.
pub fn read_model(alloc: Global, bytes: &[u8]) -> Result<Vec<Statement>, FaultyLine>
    // What is read is spelled so, each by its own lines.
    ensures found { IfOk result (λ v. SpellsModel bytes.now v.items) }
    // None of them wants more pairs.
    ensures whole { IfOk result (λ v. All (λ s. wants_pairs s ≡ false) v.items) }
    // What is spelled so is read, unless it is out of memory.
    ensures only { (ss : List Statement) → SpellsModel bytes.now ss → GivesModel (λ v. v.items) result (Ok ss) }
    // The fault that is answered is the first one, or out of memory.
    ensures fault { IfErr result (λ e. AnswersAt bytes.now e.line e.fault) }
    // A model with a first faulty line is answered with it, unless it is out of memory.
    ensures faulty { (e : FaultyLine) → FirstFaultOf bytes.now e → GivesModel (λ v. v.items) result (Err e) }
    // What reading line by line gives.
    ensures exact { GivesModel (λ v. v.items) result (model_of bytes.now) }
{
    read_lines(alloc, bytes)
}

// A statement under way, with the number of its first line.
#[derive(Drop)]
pub struct Unfinished {
    line: u64,
    statement: Statement,
}

#[tactic(auto, unfolding(crate::specs::Models::model_of))]
fn read_lines(alloc: Global, bytes: &[u8]) -> Result<Vec<Statement>, FaultyLine>
    ensures { GivesModel (λ v. v.items) result (model_of bytes.now) }
{
    let mut statements = Vec::new(alloc);
    let mut under = None;
    let mut rest = bytes;
    let mut number = 0;
    while !rest.is_empty() {
        number += 1;
        let (line, after) = first_line(rest);
        let behind = with_line(alloc, under, number, line)?;
        under = keep(number, behind, &mut statements)?;
        rest = after;
    }
    ended(under, statements)
}

// The statement that stands after the line with this number: that of the line, or the one under way with its pairs.
fn with_line(
    alloc: Global,
    under: Option<Unfinished>,
    number: u64,
    line: &[u8],
) -> Result<Option<Unfinished>, FaultyLine>
    ensures { GivesModel (λ o. o) result (with_line under number line.now) }
{
    match under {
        None => match numbered(number, read_line(alloc, line))? {
            Some(statement) => Ok(Some(Unfinished {
                line: number,
                statement,
            })),
            None => Ok(None),
        },
        Some(mut under) => {
            numbered(number, read_further(alloc, &mut under.statement, line)).and(Ok(Some(under)))
        }
    }
}

// What reading the line with this number gave, with the number at its fault.
fn numbered<T>(line: u64, read: Result<T, LineFault>) -> Result<T, FaultyLine>
    ensures { result ≡ numbered line read }
{
    match read {
        Ok(found) => Ok(found),
        Err(fault) => Err(FaultyLine { line, fault }),
    }
}

// Adds the statement that stands after the line with this number, if it is done, or else what is still under way.
fn keep(
    number: u64,
    under: Option<Unfinished>,
    statements: &mut Vec<Statement>,
) -> Result<Option<Unfinished>, FaultyLine>
    ensures kept { GivesModel (λ o. o) result (Ok (under_way under)) }
    ensures done { GivesModel (λ o. statements.new.items) result (Ok (statements.old.items ++ done_of under)) }
{
    match under {
        Some(under) if !wants_pairs(&under.statement) => {
            match statements.push(under.statement).ok() {
                Some(()) => Ok(None),
                None => Err(FaultyLine {
                    line: number,
                    fault: LineFault::Memory,
                }),
            }
        }
        waiting => Ok(waiting),
    }
}

// The statements, where none of them wants pairs at the end. What is under way is let go in `drop`, since the proof of
// a function that lets go of a statement itself is long.
fn ended(
    under: Option<Unfinished>,
    statements: Vec<Statement>,
) -> Result<Vec<Statement>, FaultyLine>
    ensures { GivesModel (λ v. v.items) result (ended under statements.items) }
{
    let read = none_left(&under).and(Ok(statements));
    drop(under);
    read
}

// A statement that is under way at the end still wants pairs, which is the fault of its first line.
fn none_left(under: &Option<Unfinished>) -> Result<(), FaultyLine>
    ensures { (statements : List Statement) → ended under.now statements ≡ result_and result (Ok statements) }
{
    match under {
        None => Ok(()),
        Some(under) => Err(FaultyLine {
            line: under.line,
            fault: LineFault::BadPairs,
        }),
    }
}

// The first line, and what follows its end.
fn first_line(bytes: &[u8]) -> (&[u8], &[u8])
    ensures lines { bytes.now ≢ [] → lines_of bytes.now ≡ result.0.now ∷ lines_of result.1.now }
    ensures shorter { bytes.now ≢ [] → length result.1.now < length bytes.now }
{
    let (line, ended, further) = piece(Class::Line, bytes);
    (if ended { chomped(line) } else { line }, further)
}

// A line without the carriage return at its end.
fn chomped(line: &[u8]) -> &[u8]
    ensures { result.now ≡ chomped line.now }
{
    match line.strip_suffix(b"\r") {
        Some(front) => front,
        None => line,
    }
}
