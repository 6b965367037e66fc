// Operands that were read, by what they are.
ghost use Rattle.std.specs.Prelude.{◌≡◌};
ghost use Rattle.std.specs.Option.{option_copied};
ghost use Rattle.gw_lines.specs.Parts.{others_of};
ghost use Rattle.gw_lines.specs.Fields.{first_of, value_in, whole_in, points_in, constant_in, constant_of, scale_with, classes_in, is_misfit, are_misfits, misfits};

use crate::operand::Operand;
use gw_expr::{Atom, Expr, FunctionType};
use gw_meaning::Classes;
use gw_names::{DefinitionVerb, Verb};
use gw_nums::Val;

/// Takes the first operand.
pub fn take_first(operands: &mut Vec<Option<Operand>>) -> Option<Operand>
    ensures first { result ≡ first_of operands.old.items }
    ensures others { operands.new.items ≡ others_of operands.old.items }
{
    if operands.is_empty() {
        None
    } else {
        operands.remove(0)
    }
}

/// The first operand.
pub fn first(operands: &[Option<Operand>]) -> Option<&Operand>
    ensures { option_copied result ≡ first_of operands.now }
{
    match operands {
        [] => None,
        [first, ..] => first.as_ref(),
    }
}

/// An operand as a value.
pub fn value_in(operand: Option<Operand>) -> Option<Expr>
    ensures { result ≡ value_in operand }
{
    match operand {
        Some(Operand::Value(value)) => Some(value),
        Some(Operand::Whole(_) | Operand::Points(_, _)) | None => None,
    }
}

/// An operand as a whole number.
pub(crate) fn whole_in(operand: Option<&Operand>) -> Option<u32>
    ensures { result ≡ whole_in (option_copied operand.entry) }
{
    match operand {
        Some(Operand::Whole(n)) => Some(*n),
        Some(Operand::Value(_) | Operand::Points(_, _)) | None => None,
    }
}

/// An operand as a FUNCTION's type and its number of points.
pub(crate) fn points_in(operand: Option<&Operand>) -> Option<(FunctionType, u32)>
    ensures { result ≡ points_in (option_copied operand.entry) }
{
    match operand {
        Some(Operand::Points(kind, count)) => Some((*kind, *count)),
        Some(Operand::Value(_) | Operand::Whole(_)) | None => None,
    }
}

/// An operand as a constant.
pub(crate) fn constant_in(operand: Option<&Operand>) -> Option<Val>
    ensures { result ≡ constant_in (option_copied operand.entry) }
{
    match operand {
        Some(Operand::Value(value)) => constant_of(value),
        Some(Operand::Whole(_) | Operand::Points(_, _)) | None => None,
    }
}

fn constant_of(value: &Expr) -> Option<Val>
    ensures { result ≡ constant_of value.now }
{
    match value {
        Expr::Value(Atom::Constant(value)) => Some(*value),
        Expr::Value(_) | Expr::Computed(_) | Expr::Named(_) => None,
        Expr::Label(_) | Expr::Fraction(_) => None,
        Expr::Defined(_) | Expr::Table(_) | Expr::Order(_) => None,
    }
}

/// The classes of a TABLE that the operands after its first one make, if they make some.
pub(crate) fn classes_in(operands: &[Option<Operand>]) -> Option<Classes>
    ensures { result ≡ classes_in operands.now }
{
    match operands {
        [first, width, count, ..] => classes_of(
            constant_in(first.as_ref()),
            whole_in(width.as_ref()),
            whole_in(count.as_ref()),
        ),
        _ => None,
    }
}

fn classes_of(first: Option<Val>, width: Option<u32>, count: Option<u32>) -> Option<Classes>
    ensures { result ≡ scale_with first width count }
{
    Classes::new(first?, width?, count?)
}

/// Whether the fourth operand, which is lawful by itself, does not go with those before it: of a TABLE it is the number
/// of the classes.
pub(crate) fn misfits(verb: Verb, operands: &[Option<Operand>]) -> bool
    ensures { result ≡ misfits verb operands.now }
{
    match verb {
        Verb::Definition(DefinitionVerb::Table) => are_misfits(operands),
        _ => false,
    }
}

fn are_misfits(operands: &[Option<Operand>]) -> bool
    ensures { result ≡ are_misfits operands.now }
{
    match operands {
        [_, first, width, count, ..] => is_misfit(
            constant_in(first.as_ref()),
            whole_in(width.as_ref()),
            whole_in(count.as_ref()),
        ),
        _ => false,
    }
}

// Whether so many classes are unlawful: they are fewer than two, or some limit is no value.
fn is_misfit(first: Option<Val>, width: Option<u32>, count: Option<u32>) -> bool
    ensures { result ≡ is_misfit first width count }
{
    match (count, first.zip(width)) {
        (None, _) => false,
        (Some(count), Some((first, width))) => Classes::new(first, width, count).is_none(),
        (Some(count), None) => count < 2,
    }
}
