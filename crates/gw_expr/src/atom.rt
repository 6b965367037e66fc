use crate::attribute::Subject;
use gw_names::{Class, Name};
use gw_nums::Val;

/// A single value: an operand by itself, or a part of an expression.
#[derive(Clone, Drop, PartialEq, Eq)]
pub enum Atom {
    /// A whole number.
    Constant(Val),
    /// A name that stands for a number.
    Number(Name),
    /// A numerical attribute of a class, and what it is of.
    Attribute(Class, Subject),
}
