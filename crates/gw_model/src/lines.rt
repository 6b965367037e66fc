ghost use Rattle.std.specs.Prelude.{◌≡◌, ◌≤◌, ◌+◌, ◌++◌, if◌then◌else◌, length, IsTrue, IfOk, IfSome, OnOk, Some, None, is_some, true};
ghost use Rattle.gw_meaning.specs.Listing.{nth};
ghost use Rattle.gw_model.specs.Listed.{numbered};
ghost use Rattle.gw_model.specs.Spliced.{inserted, greatest_number, number_in, spliced};

use crate::lists::nth;
use gw_meaning::{Numbered, Statement, StatementId};
use std::alloc::{AllocError, Global};

/// The statements with the ids 1, 2, 3 and so on.
pub fn number(alloc: Global, statements: Vec<Statement>) -> Result<Vec<Numbered>, AllocError>
    ensures { IfOk result (λ lines. lines.items ≡ numbered 1 statements.items) }
{
    let mut lines = Vec::new(alloc);
    for statement in statements {
        let number = StatementId::new(lines.len() as u64 + 1);
        put(&mut lines, number, statement)?;
    }
    Ok(lines)
}

/// The lines with one splice at a place, from 1: the line there is deleted, or stays, and a statement is inserted, or
/// none. It keeps the id of the deleted one, and else gets the id above all of theirs.
pub fn spliced(
    alloc: Global,
    lines: &[Numbered],
    place: u64,
    deletes: bool,
    inserts: Option<Statement>,
) -> Result<Vec<Numbered>, AllocError>
    requires first { 1 ≤ place }
    requires last { place ≤ length lines.now + 1 }
    requires there { IsTrue deletes → place ≤ length lines.now }
    ensures { IfOk result (λ made. made.items ≡ spliced lines.now place deletes inserts) }
{
    let index = place as usize - 1;
    let end = if deletes { index + 1 } else { index };
    let mut made = Vec::new(alloc);
    let inserts = copy_behind(alloc, &mut made, &lines[..index]).and(Ok(inserts))?;
    put_inserted(&mut made, lines, place, deletes, inserts)?;
    copy_behind(alloc, &mut made, &lines[end..])?;
    Ok(made)
}

// Puts the inserted statement, if any, after those that are made, with its id.
fn put_inserted(
    made: &mut Vec<Numbered>,
    lines: &[Numbered],
    place: u64,
    deletes: bool,
    inserts: Option<Statement>,
) -> Result<(), AllocError>
    ensures { OnOk result (made.new.items ≡ made.old.items
        ++ inserted (number_in lines.now (if deletes then nth lines.now place else None)) inserts) }
{
    match inserts {
        Some(statement) => put(made, number_in(lines, place, deletes), statement),
        None => Ok(()),
    }
}

// Puts a statement after those that are made, with its id, if there is one for it.
fn put(
    made: &mut Vec<Numbered>,
    number: Option<StatementId>,
    statement: Statement,
) -> Result<(), AllocError>
    ensures some { OnOk result (is_some number ≡ true) }
    ensures behind { IfSome number (λ n. OnOk result (made.new.items ≡ made.old.items ++ inserted n (Some statement))) }
{
    let (number, statement) = number.zip(Some(statement)).ok_or(AllocError)?;
    made.push(Numbered { number, statement })
        .or(Err(AllocError))
}

// The id of the statement that is inserted at a place, if there is one for it.
fn number_in(lines: &[Numbered], place: u64, deletes: bool) -> Option<StatementId>
    ensures { IfSome result (λ n. n ≡ number_in lines.now (if deletes then nth lines.now place else None)) }
{
    let deleted = if deletes { nth(lines, place) } else { None };
    match deleted {
        Some(line) => Some(line.number),
        None => StatementId::new(greatest_number(lines).checked_add(1)?),
    }
}

// The greatest id, 0 where there is no line.
fn greatest_number(lines: &[Numbered]) -> u64
    ensures { result ≡ greatest_number lines.now }
{
    let mut greatest = 0;
    for line in lines {
        greatest = line.number.number().max(greatest);
    }
    greatest
}

// Puts equal lines after those that are made.
fn copy_behind(
    alloc: Global,
    made: &mut Vec<Numbered>,
    lines: &[Numbered],
) -> Result<(), AllocError>
    ensures { OnOk result (made.new.items ≡ made.old.items ++ lines.now) }
{
    for line in lines {
        let number = line.number;
        let statement = line.statement.copy(alloc)?;
        made.push(Numbered { number, statement })?;
    }
    Ok(())
}
