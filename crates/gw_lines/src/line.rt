ghost use Rattle.std.specs.Prelude.{◌≡◌, IfOk, IfErr};
ghost use Rattle.gw_lines.specs.Spelling.{Spells};
ghost use Rattle.gw_lines.specs.Faulty.{FirstFault, Answers};
ghost use Rattle.gw_lines.specs.Reading.{Gives};
ghost use Rattle.gw_lines.specs.Lines.{behind_number, code_of, is_remark, line_in, line_of, statement_of};

use crate::class::{Class, span};
use crate::fault::LineFault;
use crate::words::read_code;
use gw_meaning::Statement;
use std::alloc::Global;

/// The most bytes that a line may have.
pub const LONGEST: usize = 250;

/// The statement that a line's text spells, or its first fault. A blank or a comment spells none, and a FUNCTION has no
/// points yet.
pub(crate) fn read_first(alloc: Global, text: &[u8]) -> Result<Statement, LineFault>
    // What is read is spelled so.
    ensures found { IfOk result (λ s. Spells text.now s) }
    // What is spelled so is read, unless it is out of memory.
    ensures only { (s : Statement) → Spells text.now s → Gives (λ s. s) result (Ok s) }
    // The fault that is answered is the first one, or out of memory.
    ensures fault { IfErr result (λ f. Answers text.now f) }
    // A text with a first fault is answered with it, unless it is out of memory.
    ensures faulty { (f : LineFault) → FirstFault text.now f → Gives (λ s. s) result (Err f) }
    // What reading from left to right gives.
    ensures exact { Gives (λ s. s) result (statement_of text.now) }
{
    wanted(alloc, text)
}

#[tactic(auto, unfolding(crate::specs::Lines::statement_of))]
fn wanted(alloc: Global, text: &[u8]) -> Result<Statement, LineFault>
    ensures { Gives (λ s. s) result (statement_of text.now) }
{
    match read_line(alloc, text)? {
        Some(statement) => Ok(statement),
        None => Err(LineFault::UnknownVerb),
    }
}

/// The statement of a line, if it is no blank line and no comment.
#[tactic(auto, unfolding(crate::specs::Lines::line_of))]
pub fn read_line(alloc: Global, line: &[u8]) -> Result<Option<Statement>, LineFault>
    ensures { Gives (λ o. o) result (line_of line.now) }
{
    if line.len() > LONGEST {
        return Err(LineFault::TooLong);
    }
    line_in(alloc, code(line))
}

#[tactic(auto, unfolding(crate::specs::Lines::line_in))]
fn line_in(alloc: Global, code: &[u8]) -> Result<Option<Statement>, LineFault>
    ensures { Gives (λ o. o) result (line_in code.now) }
{
    if is_remark(code) {
        return Ok(None);
    }
    Ok(Some(read_code(alloc, behind_number(code))?))
}

/// A line without the blanks before it and the comment after its `;`.
#[tactic(auto, unfolding(crate::specs::Lines::code_of))]
pub fn code(line: &[u8]) -> &[u8]
    ensures { result.now ≡ code_of line.now }
{
    span(Class::Code, span(Class::Blank, line).1).0
}

/// Whether there is no statement: nothing, or a comment.
pub(crate) fn is_remark(code: &[u8]) -> bool
    ensures { result ≡ is_remark code.now }
{
    match code {
        [] => true,
        [first, ..] => *first == b'*',
    }
}

/// What follows a line number: digits with a blank after them.
#[tactic(auto, unfolding(crate::specs::Lines::behind_number))]
pub(crate) fn behind_number(code: &[u8]) -> &[u8]
    ensures { result.now ≡ behind_number code.now }
{
    let (digits, rest) = span(Class::Digit, code);
    let (blanks, text) = span(Class::Blank, rest);
    if digits.is_empty() || blanks.is_empty() {
        code
    } else {
        text
    }
}
