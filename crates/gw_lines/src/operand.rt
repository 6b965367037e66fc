ghost use Rattle.std.specs.Prelude.{◌≡◌, IfOk};
ghost use Rattle.gw_lines.specs.Operands.{operand_in, given_in, as_value, atomic, given_value, or_term, entity_of, numbered, label_of, defined_of, table_of, type_of, points_in, order_of};
ghost use Rattle.gw_lines.specs.Expressions.{computed_of};

use crate::atom::{atom_of, constant, or_attribute};
use crate::expression::{read_bare, read_expression};
use crate::form::Kind;
use crate::number::{LIMIT, fraction, from_one};
use gw_expr::{Atom, Discipline, Expr, FunctionType};
use gw_names::{EntityName, Name, StorageName};
use gw_nums::Val;
use std::alloc::{AllocError, Global};

/// The most points that a FUNCTION has.
pub(crate) const MOST_POINTS: u32 = 1_000;

/// An operand that was read.
#[derive(Drop)]
pub enum Operand {
    Value(Expr),
    Whole(u32),
    Points(FunctionType, u32),
}

/// The operand that a text of this kind is: `None` where it is not lawful, and no operand where it is empty or says
/// nothing.
pub(crate) fn operand_in(
    alloc: Global,
    kind: Kind,
    text: &[u8],
) -> Result<Option<Option<Operand>>, AllocError>
    ensures { IfOk result (λ o. o ≡ operand_in kind text.now) }
{
    match text {
        [] => Ok(Some(None)),
        _ => given(alloc, kind, text),
    }
}

fn given(alloc: Global, kind: Kind, text: &[u8]) -> Result<Option<Option<Operand>>, AllocError>
    ensures { IfOk result (λ o. o ≡ given_in kind text.now) }
{
    match kind {
        Kind::Value => Ok(as_value(given_value(alloc, text)?)),
        Kind::Constant => Ok(as_value(atomic(constant(text)))),
        Kind::Whole { most } => match from_one(most, text) {
            Some(n) => Ok(Some(Some(Operand::Whole(n)))),
            None => Ok(None),
        },
        Kind::Quiet => {
            if text == b"NP".as_slice() {
                Ok(Some(None))
            } else {
                Ok(None)
            }
        }
        Kind::Entity => Ok(as_value(entity(alloc, text)?)),
        Kind::Fraction => match fraction(text) {
            Some(millionths) => Ok(Some(Some(Operand::Value(Expr::Fraction(millionths))))),
            None => Ok(None),
        },
        Kind::Label => Ok(as_value(label(alloc, text)?)),
        Kind::Defined => Ok(as_value(defined(alloc, text)?)),
        Kind::Table => Ok(as_value(table(alloc, text)?)),
        Kind::Expression => Ok(as_value(read_bare(alloc, text)?)),
        Kind::Points => Ok(points_in(text)),
        Kind::Order => Ok(as_value(order(text))),
        Kind::Bound => {
            if text == b"ALL".as_slice() {
                Ok(Some(None))
            } else {
                Ok(as_value(given_value(alloc, text)?))
            }
        }
    }
}

// The queue discipline that a text is.
fn order(text: &[u8]) -> Option<Expr>
    ensures { result ≡ order_of text.now }
{
    if text == b"FIFO".as_slice() {
        Some(Expr::Order(Discipline::Fifo))
    } else if text == b"LIFO".as_slice() {
        Some(Expr::Order(Discipline::Lifo))
    } else {
        None
    }
}

// The type and the number of points that a text is.
fn points_in(text: &[u8]) -> Option<Option<Operand>>
    ensures { result ≡ points_in text.now }
{
    match text {
        [] => None,
        [first, digits @ ..] => {
            let kind = type_of(*first)?;
            let count = from_one(MOST_POINTS, digits)?;
            Some(Some(Operand::Points(kind, count)))
        }
    }
}

fn type_of(b: u8) -> Option<FunctionType>
    ensures { result ≡ type_of b }
{
    match b {
        b'C' => Some(FunctionType::Continuous),
        b'D' => Some(FunctionType::Discrete),
        _ => None,
    }
}

fn as_value(value: Option<Expr>) -> Option<Option<Operand>>
    ensures { result ≡ as_value value }
{
    match value {
        Some(value) => Some(Some(Operand::Value(value))),
        None => None,
    }
}

// The value that a text is: one without parentheses, or an expression in parentheses.
fn given_value(alloc: Global, text: &[u8]) -> Result<Option<Expr>, AllocError>
    ensures { IfOk result (λ o. o ≡ given_value text.now) }
{
    or_computed(alloc, atomic(atom_of(alloc, text)?), text)
}

// What was read of a text, or the expression in parentheses that it is.
fn or_computed(alloc: Global, read: Option<Expr>, text: &[u8]) -> Result<Option<Expr>, AllocError>
    ensures { IfOk result (λ o. o ≡ or_term read (computed_of text.now)) }
{
    match read {
        Some(value) => Ok(Some(value)),
        None => read_expression(alloc, text),
    }
}

fn atomic(read: Option<Atom>) -> Option<Expr>
    ensures { result ≡ atomic read }
{
    Some(Expr::Value(read?))
}

// The entity that a text is: a name, a number from 1, an attribute or an expression in parentheses.
fn entity(alloc: Global, text: &[u8]) -> Result<Option<Expr>, AllocError>
    ensures { IfOk result (λ o. o ≡ entity_of text.now) }
{
    match Name::read(alloc, text)? {
        Some(name) => Ok(Some(Expr::Named(EntityName::new(name)))),
        None => or_computed(
            alloc,
            atomic(or_attribute(alloc, numbered(text), text)?),
            text,
        ),
    }
}

fn numbered(text: &[u8]) -> Option<Atom>
    ensures { result ≡ numbered text.now }
{
    let number = from_one(LIMIT, text)?;
    Some(Atom::Constant(Val::new(i64::from(number))?))
}

// The label that a text is.
fn label(alloc: Global, text: &[u8]) -> Result<Option<Expr>, AllocError>
    ensures { IfOk result (λ o. o ≡ label_of text.now) }
{
    match Name::read(alloc, text)? {
        Some(name) => Ok(Some(Expr::Label(name))),
        None => Ok(None),
    }
}

// The name of a table's definition that a text is.
fn table(alloc: Global, text: &[u8]) -> Result<Option<Expr>, AllocError>
    ensures { IfOk result (λ o. o ≡ table_of text.now) }
{
    match Name::read(alloc, text)? {
        Some(name) => Ok(Some(Expr::Table(name))),
        None => Ok(None),
    }
}

// The name of a storage's definition that a text is.
fn defined(alloc: Global, text: &[u8]) -> Result<Option<Expr>, AllocError>
    ensures { IfOk result (λ o. o ≡ defined_of text.now) }
{
    match Name::read(alloc, text)? {
        Some(name) => Ok(Some(Expr::Defined(StorageName::new(name)))),
        None => Ok(None),
    }
}
