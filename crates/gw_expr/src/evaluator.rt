// The value of an operand, part by part, and those of VARIABLEs and FUNCTIONs within it.
ghost use Rattle.std.specs.Prelude.{◌≡◌, ◌<◌, ◌≤◌, ◌+◌, suc, [], OnOk, Some, None, length, option_copied};
ghost use Rattle.gw_expr.specs.Evaluation.{◌⟫◌, value_of, function_of, value_by, value_of_atom, of_variable, whole_of_function, of_function, function_given, argument_by, argument_with, after_tokens, after_token, last_value, definitions_within, is_of_variable, is_of_function, is_random, random_of, point_found, number_given, Wants, NumberOf};
ghost use Rattle.gw_expr.specs.Worlds.{Says, Evaluates, Comes, in_place};

use crate::atom::Atom;
use crate::attribute::{Sna, Subject};
use crate::expr::Expr;
use crate::few_values::{FEW, FewValues};
use crate::function::Function;
use crate::halt::Halt;
use crate::many_values::ManyValues;
use crate::stop::Stop;
use crate::token::Token;
use crate::world::{Defs, World};
use gw_names::{Class, Name};
use gw_nums::{Millionths, Val};

// How many VARIABLEs and FUNCTIONs may nest.
const DEEPEST: u32 = 32;

/// The value of an operand: the definitions and the world are asked in the order of specs/Evaluation.
///
/// It stops with X6 at a division by 0, with X7 where a value would be out of range or an operand has none, with X10
/// where more than 32 VARIABLEs and FUNCTIONs nest, and with whatever the world stops with. Nothing is allocated: out
/// of memory is answered where more than 128 values wait, or where the world runs out of it. What the world noted and
/// drew up to there stays.
#[tactic(auto, unfolding(crate::specs::Evaluation::value_of))]
pub fn eval<D: Defs, W: World>(operand: &Expr, defs: &D, world: &mut W) -> Result<Val, Halt>
    ensures { Evaluates (Says (D.variable_of defs.now) (D.function_of defs.now)) W.replies
        (value_of operand.now) result world.old world.new }
{
    match operand {
        Expr::Value(atom) => of_atom(defs, world, DEEPEST, atom),
        _ => term(defs, world, DEEPEST, operand),
    }
}

/// What the FUNCTION that an attribute names comes to, in millionths: the modifier of a time takes it so, uncut.
///
/// It stops as [`eval`] does.
#[tactic(auto, unfolding(crate::specs::Evaluation::function_of))]
pub fn eval_function<D: Defs, W: World>(
    of: &Subject,
    defs: &D,
    world: &mut W,
) -> Result<Millionths, Halt>
    ensures { Evaluates (Says (D.variable_of defs.now) (D.function_of defs.now)) W.replies
        (function_of of.now) result world.old world.new }
{
    of_function(defs, world, DEEPEST, of)
}

// The value of an operand, in which so many VARIABLEs and FUNCTIONs may nest. Its arms alone are calls, one for each of
// those: all else of this cycle is inlined, so that 32 of them take 32 frames of the stack.
#[inline(always)]
#[cycle(nested)]
#[tactic(auto, unfolding(crate::specs::Evaluation::value_by), using(crate::specs::Worlds::stops))]
fn term<D: Defs, W: World>(defs: &D, world: &mut W, depth: u32, operand: &Expr) -> Result<Val, Halt>
    ensures { Evaluates (Says (D.variable_of defs.now) (D.function_of defs.now)) W.replies
        (value_by (definitions_within depth) operand.now) result world.old world.new }
{
    match operand {
        Expr::Value(atom) => alone(defs, world, depth, atom),
        Expr::Computed(tokens) if tokens.as_slice().len() > FEW => {
            computed_long(defs, world, depth, tokens.as_slice())
        }
        Expr::Computed(tokens) => computed(defs, world, depth, tokens.as_slice()),
        _ => Err(Halt::stop(Stop::Range)),
    }
}

// The value of a constant, of a name that stands for a number, or of an attribute.
#[inline(always)]
#[cycle(nested)]
#[tactic(auto, unfolding(crate::specs::Evaluation::value_of_atom))]
fn of_atom<D: Defs, W: World>(defs: &D, world: &mut W, depth: u32, atom: &Atom) -> Result<Val, Halt>
    ensures { Evaluates (Says (D.variable_of defs.now) (D.function_of defs.now)) W.replies
        (value_of_atom (definitions_within depth) atom.now) result world.old world.new }
{
    match atom {
        Atom::Constant(value) => Ok(*value),
        Atom::Number(name) => of_number(defs, world, name),
        Atom::Attribute(class, of) => {
            if is_of_variable(*class) {
                of_variable(defs, world, depth, of)
            } else if is_of_function(*class) {
                whole_of_function(defs, world, depth, of)
            } else {
                world.attribute(Sna { class: *class, of })
            }
        }
    }
}

// The value of an operand that is no expression, where a VARIABLE or a FUNCTION evaluates it.
#[inline(never)]
#[cycle(nested)]
fn alone<D: Defs, W: World>(defs: &D, world: &mut W, depth: u32, atom: &Atom) -> Result<Val, Halt>
    ensures { Evaluates (Says (D.variable_of defs.now) (D.function_of defs.now)) W.replies
        (value_of_atom (definitions_within depth) atom.now) result world.old world.new }
{
    of_atom(defs, world, depth, atom)
}

// The value of the VARIABLE that an attribute names, unless too many nest already.
#[inline(always)]
#[cycle(nested)]
#[tactic(auto, unfolding(crate::specs::Evaluation::definitions_within), using(crate::specs::Worlds::stops))]
fn of_variable<D: Defs, W: World>(
    defs: &D,
    world: &mut W,
    depth: u32,
    of: &Subject,
) -> Result<Val, Halt>
    ensures { Evaluates (Says (D.variable_of defs.now) (D.function_of defs.now)) W.replies
        (of_variable (definitions_within depth) of.now) result world.old world.new }
{
    let Subject::Name(name) = of else {
        return Err(Halt::stop(Stop::Range));
    };
    if depth == 0 {
        return Err(Halt::stop(Stop::VariableDepth));
    }
    world.note_variable(name)?;
    match defs.variable(name) {
        Some(expression) => term(defs, world, depth - 1, expression),
        None => Err(Halt::stop(Stop::Range)),
    }
}

// The greatest value that is not above what a FUNCTION comes to.
#[inline(always)]
#[cycle(nested)]
fn whole_of_function<D: Defs, W: World>(
    defs: &D,
    world: &mut W,
    depth: u32,
    of: &Subject,
) -> Result<Val, Halt>
    ensures { Evaluates (Says (D.variable_of defs.now) (D.function_of defs.now)) W.replies
        (whole_of_function (definitions_within depth) of.now) result world.old world.new }
{
    let y = of_function(defs, world, depth, of)?;
    Ok(y.whole())
}

// What the FUNCTION that an attribute names comes to, unless too many nest already.
#[inline(always)]
#[cycle(nested)]
#[tactic(auto, unfolding(crate::specs::Evaluation::definitions_within), using(crate::specs::Worlds::stops))]
fn of_function<D: Defs, W: World>(
    defs: &D,
    world: &mut W,
    depth: u32,
    of: &Subject,
) -> Result<Millionths, Halt>
    ensures { Evaluates (Says (D.variable_of defs.now) (D.function_of defs.now)) W.replies
        (of_function (definitions_within depth) of.now) result world.old world.new }
{
    let Subject::Name(name) = of else {
        return Err(Halt::stop(Stop::Range));
    };
    if depth == 0 {
        return Err(Halt::stop(Stop::VariableDepth));
    }
    world.note_function(name)?;
    match defs.function(name) {
        Some(function) => at_argument(defs, world, depth - 1, function),
        None => Err(Halt::stop(Stop::Range)),
    }
}

// What a FUNCTION comes to at its argument.
#[inline(always)]
#[cycle(nested)]
fn at_argument<D: Defs, W: World>(
    defs: &D,
    world: &mut W,
    depth: u32,
    function: &Function,
) -> Result<Millionths, Halt>
    ensures { Evaluates (Says (D.variable_of defs.now) (D.function_of defs.now)) W.replies
        (function_given (argument_by (definitions_within depth)) (Some function.now)) result world.old world.new }
{
    let x = argument(defs, world, depth, &function.argument)?;
    point_found(function.at(x))
}

// The argument of a FUNCTION.
#[inline(always)]
#[cycle(nested)]
fn argument<D: Defs, W: World>(
    defs: &D,
    world: &mut W,
    depth: u32,
    argument: &Expr,
) -> Result<Millionths, Halt>
    ensures { Evaluates (Says (D.variable_of defs.now) (D.function_of defs.now)) W.replies
        (argument_by (definitions_within depth) argument.now) result world.old world.new }
{
    match random_of(argument) {
        Some(of) => world.part(of),
        None => whole_argument(defs, world, depth, argument),
    }
}

// An argument that is a value.
#[inline(always)]
#[cycle(nested)]
fn whole_argument<D: Defs, W: World>(
    defs: &D,
    world: &mut W,
    depth: u32,
    argument: &Expr,
) -> Result<Millionths, Halt>
    ensures { Evaluates (Says (D.variable_of defs.now) (D.function_of defs.now)) W.replies
        (argument_with (definitions_within depth) argument.now None) result world.old world.new }
{
    let value = term(defs, world, depth, argument)?;
    Ok(Millionths::of_value(value))
}

// The value of an expression of at most so many parts. The 16 here and below is FEW.
#[inline(never)]
#[cycle(nested)]
fn computed<D: Defs, W: World>(
    defs: &D,
    world: &mut W,
    depth: u32,
    tokens: &[Token],
) -> Result<Val, Halt>
    requires { length tokens.now ≤ 16 }
    ensures { Evaluates (Says (D.variable_of defs.now) (D.function_of defs.now)) W.replies
        (after_tokens (definitions_within depth) tokens.now [] ⟫ last_value) result world.old world.new }
{
    let mut values = FewValues::new();
    for part in tokens {
        part_of_few(defs, world, depth, part, &mut values)?;
    }
    values.last()
}

// What one part of an expression makes of the few values that wait.
#[inline(always)]
#[cycle(nested)]
fn part_of_few<D: Defs, W: World>(
    defs: &D,
    world: &mut W,
    depth: u32,
    token: &Token,
    values: &mut FewValues,
) -> Result<(), Halt>
    requires { length values.old < 16 }
    ensures evaluates { Evaluates (Says (D.variable_of defs.now) (D.function_of defs.now)) W.replies
        (after_token (definitions_within depth) token.now values.old) (in_place result values.new) world.old world.new }
    ensures more { OnOk result (length values.new ≤ length values.old + 1) }
{
    match token {
        Token::Value(atom) => {
            let value = of_atom(defs, world, depth, atom)?;
            values.push(value);
            Ok(())
        }
        Token::Negated => values.negate_last(),
        Token::Applied(operator) => values.apply_last(*operator),
    }
}

// The value of an expression of more parts.
#[cold]
#[inline(never)]
#[cycle(nested)]
fn computed_long<D: Defs, W: World>(
    defs: &D,
    world: &mut W,
    depth: u32,
    tokens: &[Token],
) -> Result<Val, Halt>
    ensures { Evaluates (Says (D.variable_of defs.now) (D.function_of defs.now)) W.replies
        (after_tokens (definitions_within depth) tokens.now [] ⟫ last_value) result world.old world.new }
{
    let mut values = ManyValues::new();
    for part in tokens {
        part_of_many(defs, world, depth, part, &mut values)?;
    }
    values.last()
}

// What one part of an expression makes of the many values that may wait.
#[inline(always)]
#[cycle(nested)]
fn part_of_many<D: Defs, W: World>(
    defs: &D,
    world: &mut W,
    depth: u32,
    token: &Token,
    values: &mut ManyValues,
) -> Result<(), Halt>
    ensures { Evaluates (Says (D.variable_of defs.now) (D.function_of defs.now)) W.replies
        (after_token (definitions_within depth) token.now values.old) (in_place result values.new) world.old world.new }
{
    match token {
        Token::Value(atom) => {
            let found = of_atom(defs, world, depth, atom)?;
            values.push(found)?;
            Ok(())
        }
        Token::Negated => values.negate_last(),
        Token::Applied(operator) => values.apply_last(*operator),
    }
}

// Whether an attribute is that of a VARIABLE.
fn is_of_variable(class: Class) -> bool
    ensures { result ≡ is_of_variable class }
{
    match class {
        Class::V => true,
        _ => false,
    }
}

/// Whether an attribute is that of a FUNCTION.
pub fn is_of_function(class: Class) -> bool
    ensures { result ≡ is_of_function class }
{
    match class {
        Class::Fn => true,
        _ => false,
    }
}

// Whether an attribute is a random number.
fn is_random(class: Class) -> bool
    ensures { result ≡ is_random class }
{
    match class {
        Class::Rn => true,
        _ => false,
    }
}

// The stream of the random number that is the whole operand, if it is one.
#[inline(always)]
fn random_of(operand: &Expr) -> Option<&Subject>
    ensures { option_copied result ≡ random_of operand.now }
{
    match operand {
        Expr::Value(Atom::Attribute(class, of)) if is_random(*class) => Some(of),
        _ => None,
    }
}

// What a FUNCTION comes to, where it has a point.
fn point_found(y: Option<Millionths>) -> Result<Millionths, Halt>
    ensures { Comes (point_found y) result }
{
    match y {
        Some(y) => Ok(y),
        None => Err(Halt::stop(Stop::Range)),
    }
}

// The number that a name stands for, where it stands for one. Never inlined, so that the loop over the parts keeps its
// registers; `defs` stands for the contract alone.
#[inline(never)]
fn of_number<D: Defs, W: World>(defs: &D, world: &mut W, name: &Name) -> Result<Val, Halt>
    ensures { Evaluates (Says (D.variable_of defs.now) (D.function_of defs.now)) W.replies
        (Wants (NumberOf name.now) number_given) result world.old world.new }
{
    number_given(world.number(name)?)
}

// The same, of what the world replied.
fn number_given(number: Option<Val>) -> Result<Val, Halt>
    ensures { Comes (number_given number) result }
{
    match number {
        Some(number) => Ok(number),
        None => Err(Halt::stop(Stop::Range)),
    }
}
