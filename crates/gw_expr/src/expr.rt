ghost use Rattle.std.specs.Prelude.{◌≡◌, IfOk};

use crate::atom::Atom;
use crate::row::Row;
use crate::token::Token;
use gw_names::{EntityName, Name, StorageName};
use std::alloc::AllocError;

/// An operand: a value, an expression, the name of an entity or of a definition, a block's label, a fraction or a queue
/// discipline.
#[derive(Drop, PartialEq, Eq)]
pub enum Expr {
    /// A single value.
    Value(Atom),
    /// An expression, in postfix order.
    Computed(Row<Token>),
    /// The name of an entity.
    Named(EntityName),
    /// A block's label.
    Label(Name),
    /// A fraction, in millionths.
    Fraction(u32),
    /// The name of a storage's definition.
    Defined(StorageName),
    /// The name of a table's definition.
    Table(Name),
    /// The order in which a user chain is served.
    Order(Discipline),
}

/// Where a transaction that is linked goes on its user chain.
#[derive(Clone, Copy, PartialEq, Eq)]
pub enum Discipline {
    /// `FIFO`: to the back, so that who came first goes first.
    Fifo,
    /// `LIFO`: to the front, so that who came last goes first.
    Lifo,
}

impl Expr {
    /// An equal operand.
    pub fn copy(&self) -> Result<Expr, AllocError>
        ensures { IfOk result (λ e. e ≡ self.now) }
    {
        match self {
            Expr::Value(atom) => Ok(Expr::Value(atom.clone()?)),
            Expr::Computed(tokens) => Ok(Expr::Computed(tokens.clone()?)),
            Expr::Named(name) => Ok(Expr::Named(EntityName::new(name.name().clone()?))),
            Expr::Label(name) => Ok(Expr::Label(name.clone()?)),
            Expr::Fraction(millionths) => Ok(Expr::Fraction(*millionths)),
            Expr::Defined(name) => Ok(Expr::Defined(StorageName::new(name.name().clone()?))),
            Expr::Table(name) => Ok(Expr::Table(name.clone()?)),
            Expr::Order(discipline) => Ok(Expr::Order(*discipline)),
        }
    }
}
