ghost use Rattle.std.specs.Prelude.{◌≡◌, ◌∷◌, [], IfOk, IfErr, Ok, Err, false};
ghost use Rattle.gw_lines.specs.Reading.{Gives, IsFault, OrMemory};
ghost use Rattle.gw_lines.specs.Pairs.{kept_of, wants_pairs, open_lines};
ghost use Rattle.gw_lines.specs.Points.{SpellsLines};
ghost use Rattle.gw_lines.specs.Edits.{SpellsEdit, FaultOfLines, FirstFaultOfEdit, AnswersEdit, edit_lines, short_lines, byte_fault, plain_further, may_miss, followed, completed_by, first_of, plain_behind, edit_of};

use crate::class::{Class, first_piece};
use crate::fault::LineFault;
use crate::line::{LONGEST, behind_number, code, read_first};
use crate::pairs::{read_further, read_kept, read_open, wants_pairs};
use crate::words::names_function;
use gw_meaning::Statement;
use std::alloc::Global;

/// The statement that the text of an edit spells, or its first fault. `|` ends a line there, in a comment too,
/// and one at the very end opens no further line. A FUNCTION's pairs stand on the further lines.
///
/// A line that is too long comes first, then a wrong byte of any line (a further line has its comment as one of pairs),
/// then the faults of the first line from left to right, then `BadPairs` for pairs that are not lawful or are missing,
/// and for any further line that no pairs want, and a missing operand last. After a FUNCTION that misses one, pairs
/// are lawful where they would be with some count from 1 to 1,000.
pub fn read_edit(alloc: Global, text: &[u8]) -> Result<Statement, LineFault>
    // What is read is spelled so.
    ensures found { IfOk result (λ s. SpellsEdit text.now s) }
    // It wants no more pairs.
    ensures whole { IfOk result (λ s. wants_pairs s ≡ false) }
    // What is spelled so is read, unless it is out of memory.
    ensures only { (s : Statement) → SpellsEdit text.now s → Gives (λ s. s) result (Ok s) }
    // The fault that is answered is the first one, or out of memory.
    ensures fault { IfErr result (λ f. AnswersEdit text.now f) }
    // A text with a first fault is answered with it, unless it is out of memory.
    ensures faulty { (f : LineFault) → FirstFaultOfEdit text.now f → Gives (λ s. s) result (Err f) }
    // What reading line by line gives.
    ensures exact { Gives (λ s. s) result (edit_of text.now) }
{
    read_lines(alloc, text)
}

/// The statement that a line spells alone, or its first fault. A FUNCTION wants pairs, and is `BadPairs`.
pub fn read_statement(alloc: Global, line: &[u8]) -> Result<Statement, LineFault>
    // What is read is spelled so.
    ensures found { IfOk result (λ s. SpellsLines (line.now ∷ []) s) }
    // What is spelled so is read, unless it is out of memory.
    ensures only { (s : Statement) → SpellsLines (line.now ∷ []) s → Gives (λ s. s) result (Ok s) }
    // The fault that is answered is the first one, or out of memory.
    ensures fault { IfErr result (λ f. OrMemory f (FaultOfLines (line.now ∷ []) f)) }
    // A line with a first fault is answered with it, unless it is out of memory.
    ensures faulty { (f : LineFault) → FaultOfLines (line.now ∷ []) f → Gives (λ s. s) result (Err f) }
{
    read_alone(alloc, line)
}

fn read_alone(alloc: Global, line: &[u8]) -> Result<Statement, LineFault>
    ensures { Gives (λ s. s) result (first_of (line.now ∷ [])) }
{
    let mut statement = read_first(alloc, line)?;
    complete(alloc, &mut statement, b"").and(Ok(statement))
}

#[tactic(auto, unfolding(crate::specs::Edits::edit_of))]
fn read_lines(alloc: Global, text: &[u8]) -> Result<Statement, LineFault>
    ensures { Gives (λ s. s) result (edit_of text.now) }
{
    short_lines(text)?;
    plain_behind(alloc, text)?;
    first_statement(alloc, text)
}

// Nothing, where no line is too long.
fn short_lines(text: &[u8]) -> Result<(), LineFault>
    ensures { result ≡ short_lines (edit_lines text.now) }
{
    let mut rest = text;
    while !rest.is_empty() {
        let (line, further) = first_piece(Class::Part, rest);
        if line.len() > LONGEST {
            return Err(LineFault::TooLong);
        }
        rest = further;
    }
    Ok(())
}

// Nothing, where no line after the first has a wrong byte outside its comment. The first one tells its own as it is
// read, and no fault of that line comes before it.
fn plain_behind(alloc: Global, text: &[u8]) -> Result<(), LineFault>
    ensures { Gives (λ u. u) result (plain_behind (edit_lines text.now)) }
{
    if text.is_empty() {
        return Ok(());
    }
    plain_further(alloc, first_piece(Class::Part, text).1)
}

fn plain_further(alloc: Global, text: &[u8]) -> Result<(), LineFault>
    ensures { Gives (λ u. u) result (plain_further (edit_lines text.now)) }
{
    let mut rest = text;
    while !rest.is_empty() {
        let (line, further) = first_piece(Class::Part, rest);
        plain_pairs(alloc, line)?;
        rest = further;
    }
    Ok(())
}

fn plain_pairs(alloc: Global, line: &[u8]) -> Result<(), LineFault>
    ensures { Gives (λ u. u) result (byte_fault (kept_of line.now)) }
{
    match read_kept(alloc, line) {
        Err(LineFault::BadByte) => Err(LineFault::BadByte),
        Err(LineFault::Memory) => Err(LineFault::Memory),
        _ => Ok(()),
    }
}

// The statement that begins on the first line, with the pairs of those after it.
fn first_statement(alloc: Global, text: &[u8]) -> Result<Statement, LineFault>
    ensures { Gives (λ s. s) result (first_of (edit_lines text.now)) }
{
    if text.is_empty() {
        return Err(LineFault::UnknownVerb);
    }
    let (line, further) = first_piece(Class::Part, text);
    match read_first(alloc, line) {
        Ok(mut statement) => complete(alloc, &mut statement, further).and(Ok(statement)),
        Err(fault) => Err(followed(alloc, line, further, fault)),
    }
}

// Adds to a statement the pairs of further lines, each of which it wants, and those alone.
fn complete(alloc: Global, statement: &mut Statement, text: &[u8]) -> Result<(), LineFault>
    ensures { Gives (λ u. statement.new) result (completed_by statement.old (edit_lines text.now)) }
{
    let mut rest = text;
    while !rest.is_empty() {
        let (line, further) = first_piece(Class::Part, rest);
        if !wants_pairs(statement) {
            return Err(LineFault::BadPairs);
        }
        read_further(alloc, statement, line)?;
        rest = further;
    }
    if wants_pairs(statement) {
        Err(LineFault::BadPairs)
    } else {
        Ok(())
    }
}

// The first line's fault: a missing operand comes last, after a fault of further lines.
fn followed(alloc: Global, line: &[u8], further: &[u8], fault: LineFault) -> LineFault
    ensures { IsFault result (followed (may_miss line.now (edit_lines further.now)) fault) }
{
    match fault {
        LineFault::MissingOperand(_) => match may_miss(alloc, line, further) {
            Ok(()) => fault,
            Err(bad) => bad,
        },
        _ => fault,
    }
}

// Ok where the missing operand stays the fault: no further line stands there, or those may be a FUNCTION's pairs. Else
// the fault of the further lines.
#[tactic(auto, using(crate::proofs::OpenPairs::no_lines))]
fn may_miss(alloc: Global, line: &[u8], further: &[u8]) -> Result<(), LineFault>
    ensures { Gives (λ u. u) result (may_miss line.now (edit_lines further.now)) }
{
    if further.is_empty() {
        Ok(())
    } else if names_function(alloc, behind_number(code(line)))? {
        open_lines(alloc, further)
    } else {
        Err(LineFault::BadPairs)
    }
}

// Ok where lines may be a FUNCTION's pairs with some count, else their fault.
#[tactic(auto, using(crate::proofs::OpenPairs::no_lines))]
fn open_lines(alloc: Global, text: &[u8]) -> Result<(), LineFault>
    ensures { Gives (λ u. u) result (open_lines [] (edit_lines text.now)) }
{
    let mut points = Vec::new(alloc);
    let mut rest = text;
    while !rest.is_empty() {
        let (line, further) = first_piece(Class::Part, rest);
        points = read_open(alloc, points, line, further.is_empty())?;
        rest = further;
    }
    Ok(())
}
