ghost use Rattle.std.specs.Prelude.{◌≡◌, ◌≤◌, length, map, IfOk};
ghost use Rattle.gw_lines.specs.Reading.{Gives};
ghost use Rattle.gw_lines.specs.Forms.{forms_of};
ghost use Rattle.gw_lines.specs.Parts.{is_given, parts_of};
ghost use Rattle.gw_lines.specs.Fields.{whole_in};
ghost use Rattle.gw_lines.specs.Bodies.{body_of, by_forms, in_forms, body_with, definition_with, command_with, function_with, table_with};

use crate::auxiliary::{auxiliary_of, takes_operator, without_sign};
use crate::class::word;
use crate::fault::LineFault;
use crate::field::{classes_in, constant_in, first, points_in, take_first, value_in, whole_in};
use crate::form::{Form, forms_of, lacks};
use crate::operand::Operand;
use crate::operands::{is_given, read_operands};
use gw_expr::{Expr, Function, FunctionType, Row};
use gw_meaning::{Auxiliary, Block, Body, Classes, Command, Definition, Table};
use gw_names::{CommandVerb, DefinitionVerb, Verb};
use std::alloc::{AllocError, Global};

/// The body that a verb's text spells: its operator and its operand list, in upper case and without skipped blanks.
#[tactic(auto, unfolding(crate::specs::Bodies::body_of))]
pub(crate) fn read_body(alloc: Global, verb: Verb, text: &[u8]) -> Result<Body, LineFault>
    ensures { Gives (λ b. b) result (body_of verb text.now) }
{
    let auxiliary = auxiliary_of(verb, text)?;
    if takes_operator(verb) {
        let (_, operands) = word(text);
        return by_forms(alloc, verb, auxiliary, operands);
    }
    match auxiliary {
        Auxiliary::Plus | Auxiliary::Minus => {
            by_forms(alloc, verb, auxiliary, &without_sign(alloc, text)?)
        }
        _ => by_forms(alloc, verb, auxiliary, text),
    }
}

// The body that a verb's operand list spells, which has lost its operator or its sign.
fn by_forms(alloc: Global, verb: Verb, auxiliary: Auxiliary, text: &[u8]) -> Result<Body, LineFault>
    ensures { Gives (λ b. b) result
        (by_forms verb auxiliary (forms_of verb auxiliary (is_given (parts_of text.now))) (parts_of text.now)) }
{
    match forms_of(verb, auxiliary, is_given(text)) {
        Some(forms) => in_forms(alloc, verb, auxiliary, forms, text),
        None => Err(LineFault::UnknownVerb),
    }
}

#[tactic(auto, unfolding(crate::specs::Bodies::in_forms))]
fn in_forms(
    alloc: Global,
    verb: Verb,
    auxiliary: Auxiliary,
    forms: &[Form],
    text: &[u8],
) -> Result<Body, LineFault>
    requires { length forms.now ≤ 7 }
    ensures { Gives (λ b. b) result (in_forms verb auxiliary forms.now (parts_of text.now)) }
{
    let operands = read_operands(alloc, verb, forms, text)?;
    if lacks(verb, &operands) {
        return Err(LineFault::MissingOperand(1));
    }
    match body_with(alloc, verb, auxiliary, operands)? {
        Some(body) => Ok(body),
        None => Err(LineFault::UnknownVerb),
    }
}

// The body of a verb with this operator or sign and these operands, if they have its forms.
#[tactic(auto, unfolding(crate::specs::Bodies::body_with))]
fn body_with(
    alloc: Global,
    verb: Verb,
    auxiliary: Auxiliary,
    operands: Vec<Option<Operand>>,
) -> Result<Option<Body>, AllocError>
    ensures { IfOk result (λ o. o ≡ body_with verb auxiliary operands.items) }
{
    match verb {
        Verb::Block(verb) => {
            let operands = operands.into_iter().map(|o| value_in(o)).collect(alloc)?;
            Ok(Some(Body::Block(Block {
                verb,
                auxiliary,
                operands: Row::from_vec(operands),
            })))
        }
        Verb::Definition(verb) => Ok(definition_with(alloc, verb, operands)),
        Verb::Command(verb) => command_with(alloc, verb, operands),
    }
}

// The definition of a verb with these operands, if they have its forms.
fn definition_with(
    alloc: Global,
    verb: DefinitionVerb,
    mut operands: Vec<Option<Operand>>,
) -> Option<Body>
    ensures { result ≡ definition_with verb operands.items }
{
    match verb {
        DefinitionVerb::Storage => {
            let capacity = u64::from(whole_in(first(&operands))?);
            Some(Body::Definition(Definition::Storage { capacity }))
        }
        DefinitionVerb::Equ => {
            let value = constant_in(first(&operands))?;
            Some(Body::Definition(Definition::Equ { value }))
        }
        DefinitionVerb::Variable => {
            let expression = value_in(take_first(&mut operands))?;
            Some(Body::Definition(Definition::Variable { expression }))
        }
        DefinitionVerb::Function => {
            let argument = value_in(take_first(&mut operands));
            function_with(alloc, argument, points_in(first(&operands)))
        }
        DefinitionVerb::Table => {
            let argument = value_in(take_first(&mut operands));
            table_with(argument, classes_in(&operands))
        }
    }
}

// The FUNCTION with this argument, and with this type and number of points, none of which was read.
fn function_with(
    alloc: Global,
    argument: Option<Expr>,
    points: Option<(FunctionType, u32)>,
) -> Option<Body>
    ensures { result ≡ function_with argument points }
{
    let (argument, (kind, count)) = argument.zip(points)?;
    Some(Body::Definition(Definition::Function(Function {
        argument,
        kind,
        count,
        points: Row::from_vec(Vec::new(alloc)),
    })))
}

// The TABLE with this argument and these classes.
fn table_with(argument: Option<Expr>, classes: Option<Classes>) -> Option<Body>
    ensures { result ≡ table_with argument classes }
{
    let (argument, classes) = argument.zip(classes)?;
    Some(Body::Definition(Definition::Table(Table { argument, classes })))
}

// The command of a verb with these operands, if they have its forms.
fn command_with(
    alloc: Global,
    verb: CommandVerb,
    operands: Vec<Option<Operand>>,
) -> Result<Option<Body>, AllocError>
    ensures { IfOk result (λ o. o ≡ command_with verb operands.items) }
{
    match verb {
        CommandVerb::Start => match whole_in(first(&operands)) {
            Some(count) => Ok(Some(Body::Command(Command::Start {
                count: u64::from(count),
            }))),
            None => Ok(None),
        },
        CommandVerb::Rmult => {
            let values = stream_values(alloc, &operands)?;
            Ok(Some(Body::Command(Command::Rmult {
                values: Row::from_vec(values),
            })))
        }
        CommandVerb::Reset => Ok(Some(Body::Command(Command::Reset))),
        CommandVerb::Clear => Ok(Some(Body::Command(Command::Clear))),
    }
}

// The values that the operands of RMULT give their streams.
fn stream_values(
    alloc: Global,
    operands: &[Option<Operand>],
) -> Result<Vec<Option<u32>>, AllocError>
    ensures { IfOk result (λ vs. vs.items ≡ map whole_in operands.now) }
{
    operands.iter().map(|o| whole_in(o.as_ref())).collect(alloc)
}
