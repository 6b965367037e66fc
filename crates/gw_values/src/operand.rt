// What operands stand for: values, entities and units.
ghost use Rattle.std.specs.Prelude.{◌≡◌, [], Some, IfSome, option_copied};
ghost use Rattle.gw_expr.specs.declared.atom.Atom.TheVariants as atoms;
ghost use Rattle.gw_expr.specs.declared.expr.Expr.TheVariants.{Value};
ghost use Rattle.gw_expr.specs.Evaluation.{value_of};
ghost use Rattle.gw_meaning.specs.Evaluation.{value_prog, value_or_zero, value_there, numbered, entity_prog, units_prog, ◌~>◌, gives, traced, value_traced, entity_traced};
ghost use Rattle.gw_values.specs.Tracing.{with_read};
ghost use Rattle.gw_values.specs.Contexts.{DecidesIn};

use crate::attributes::{key_named, key_numbered};
use crate::context::Context;
use crate::seen::Seen;
use crate::traced::Traced;
use gw_asking::{Notes, ask_number};
use gw_expr::{Atom, Expr, Halt, Stop, eval};
use gw_meaning::Watched;
use gw_names::Key;
use gw_nums::Val;

// The value of an operand: that of a constant, as most are, at once.
#[inline(always)]
pub fn value(context: Context, notes: &mut Notes, operand: &Expr) -> Result<Val, Halt>
    ensures { DecidesIn context.entry (λ s q. value_prog s q operand.now) result notes.old notes.new }
{
    match constant(operand) {
        Some(value) => Ok(value),
        None => evaluation(context, notes, operand),
    }
}

// The value of an operand that is a constant.
#[inline(always)]
fn constant(operand: &Expr) -> Option<Val>
    ensures { IfSome result (λ v. operand.now ≡ Value (atoms.Constant v)) }
{
    match operand {
        Expr::Value(Atom::Constant(value)) => Some(*value),
        _ => None,
    }
}

// The value of an operand that is evaluated.
#[inline(never)]
fn evaluation(context: Context, notes: &mut Notes, operand: &Expr) -> Result<Val, Halt>
    ensures { DecidesIn context.entry (λ s q. value_prog s q operand.now) result notes.old notes.new }
{
    let mut seen = Seen { context, notes };
    eval(operand, context.run.version, &mut seen)
}

/// The value of an operand that is there. It stops as its evaluation does, and with X7 where the operand is absent,
/// which no version that was read lacks.
#[inline(always)]
pub fn value_there(context: Context, notes: &mut Notes, operand: Option<&Expr>) -> Result<Val, Halt>
    ensures { DecidesIn context.entry (λ s q. value_there s q (option_copied operand.entry))
        result notes.old notes.new }
{
    match operand {
        Some(expr) => value(context, notes, expr),
        None => Err(Halt::stop(Stop::Range)),
    }
}

/// The value of an operand, or 0 where it is absent.
#[inline(always)]
pub fn value_or_zero(
    context: Context,
    notes: &mut Notes,
    operand: Option<&Expr>,
) -> Result<Val, Halt>
    ensures { DecidesIn context.entry (λ s q. value_or_zero s q (option_copied operand.entry))
        result notes.old notes.new }
{
    match operand {
        Some(expr) => value(context, notes, expr),
        None => Ok(Val::ZERO),
    }
}

/// The key of the entity that an operand names: a name's own, or the number that it stands for or that the operand
/// comes to. X7 where that number is below 1.
#[inline(always)]
pub fn key_of(context: Context, notes: &mut Notes, operand: Option<&Expr>) -> Result<Key, Halt>
    ensures { DecidesIn context.entry (λ s q. entity_prog s q (option_copied operand.entry))
        result notes.old notes.new }
{
    let Some(expr) = operand else {
        return Err(Halt::stop(Stop::Range));
    };
    match expr {
        Expr::Named(name) => {
            let number = ask_number(context.run.version, notes, name.name())?;
            key_named(name.name(), number)
        }
        _ => computed_entity(context, notes, expr),
    }
}

// The entity whose number is the value of an operand.
#[inline(always)]
fn computed_entity(context: Context, notes: &mut Notes, operand: &Expr) -> Result<Key, Halt>
    ensures { DecidesIn context.entry (λ s q. value_prog s q operand.now ~> numbered) result notes.old notes.new }
{
    let number = value(context, notes, operand)?;
    key_numbered(number)
}

/// How many units an operand says, and 1 where it is absent. X11 where it says less than 1.
#[inline(always)]
pub fn units_of(context: Context, notes: &mut Notes, operand: Option<&Expr>) -> Result<u32, Halt>
    ensures { DecidesIn context.entry (λ s q. units_prog s q (option_copied operand.entry)) result notes.old notes.new }
{
    let Some(expr) = operand else {
        return Ok(1);
    };
    let units = value(context, notes, expr)?;
    if units.get() < 1 {
        return Err(Halt::stop(Stop::BadCount));
    }
    Ok(units.magnitude() as u32)
}

/// The value of an operand that is there. What a block may write of what it reads comes after what was read before,
/// each thing once.
pub fn value_traced(
    context: Context,
    notes: &mut Notes,
    read: &mut Vec<Watched>,
    operand: Option<&Expr>,
) -> Result<Val, Halt>
    ensures { DecidesIn context.entry (λ s q. value_traced s q read.old.items (option_copied operand.entry))
        (with_read result read.new.items) notes.old notes.new }
{
    match operand {
        Some(expr) => evaluation_traced(context, notes, read, expr),
        None => Err(Halt::stop(Stop::Range)),
    }
}

fn evaluation_traced(
    context: Context,
    notes: &mut Notes,
    read: &mut Vec<Watched>,
    operand: &Expr,
) -> Result<Val, Halt>
    ensures { DecidesIn context.entry (λ s q. traced s q read.old.items (value_of operand.now))
        (with_read result read.new.items) notes.old notes.new }
{
    let seen = Seen { context, notes };
    let mut traced = Traced { seen, read };
    eval(operand, context.run.version, &mut traced)
}

/// The key of the entity that an operand names, with what was read to find it.
pub fn entity_traced(
    context: Context,
    notes: &mut Notes,
    read: &mut Vec<Watched>,
    operand: &Expr,
) -> Result<Key, Halt>
    requires { read.old.items ≡ [] }
    ensures { DecidesIn context.entry (λ s q. entity_traced s q (Some operand.now))
        (with_read result read.new.items) notes.old notes.new }
{
    match operand {
        Expr::Named(name) => {
            let number = ask_number(context.run.version, notes, name.name())?;
            key_named(name.name(), number)
        }
        _ => computed_traced(context, notes, read, operand),
    }
}

// The entity whose number is the value of an operand, with what that reads.
fn computed_traced(
    context: Context,
    notes: &mut Notes,
    read: &mut Vec<Watched>,
    operand: &Expr,
) -> Result<Key, Halt>
    ensures { DecidesIn context.entry (λ s q. traced s q read.old.items (value_of operand.now) ~>
        (λ r. numbered r.0 ~> (λ key. gives (key, r.1))))
        (with_read result read.new.items) notes.old notes.new }
{
    let number = evaluation_traced(context, notes, read, operand)?;
    key_numbered(number)
}
