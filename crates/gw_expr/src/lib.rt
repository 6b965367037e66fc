//! Operands: what an operand says, what it comes to, and the stops that its evaluation or its block may end a run with.
//!
//! An [`Expr`] is plain data. An expression is kept in postfix order, as a list of [`Token`]s. [`symbol_of`] says which
//! bytes are parentheses and operators, and which operators bind tighter.
//!
//! What an operand comes to is defined as a program of questions (specs/Evaluation), and [`eval`] evaluates it over any
//! [`Defs`] and any [`World`], by what these answer.
//!
//! What is proved:
//!
//! - Contracts see an operand as a term: a value, an expression in postfix order (in parentheses or a whole operand),
//!   the name of an entity, the name of a definition, the label of a block, or a fraction.
//! - Which byte is which operator, which operators bind tighter, and what each makes of two values is as defined. The
//!   stops have their numbers.
//! - [`eval`] gives an operand the value of the definition. It asks the questions of the definition, in order; it stops
//!   at the first that has no reply, or out of memory; and it leaves the world as the replies made it.
//! - An expression in postfix order has the value that recursion on the expression gives it. An expression of constants
//!   has one value, or one stop, and asks for nothing.
//! - A FUNCTION has the value that its points give. Where they rise, it has at each of them the value given there.
//!
//! Contracts: `Expr::value`, `computed`, `copy`, `symbol_of`, `Operator::apply`, `Stop::number`, `eval`,
//! `eval_function`, `Function::at`, `expressions_have_their_values`, `constants_hang_on_nothing`,
//! `points_have_their_values`.
#![tactic(auto)]

mod atom;
mod attribute;
mod evaluator;
mod expr;
mod few_values;
mod function;
mod halt;
mod laws;
mod many_values;
mod row;
mod stop;
mod symbol;
mod token;
mod world;

pub use atom::Atom;
pub use attribute::{Sna, Subject};
pub use evaluator::{eval, eval_function, is_of_function};
pub use expr::{Discipline, Expr};
pub use function::{Function, FunctionType, Point};
pub use halt::{End, Halt};
pub use laws::{
    constants_hang_on_nothing, expressions_have_their_values, points_have_their_values,
};
pub use row::Row;
pub use stop::Stop;
pub use symbol::{Symbol, symbol_of};
pub use token::{Operator, Token};
pub use world::{Defs, World};
