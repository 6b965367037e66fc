// The one walk over what statements name: each operand of a block, the expression of a VARIABLE and the argument of a
// FUNCTION or of a TABLE, value by value.
ghost use Rattle.std.specs.Prelude.{◌≡◌, ℕ, Bool, List, Option, option_copied};
ghost use Rattle.std.specs.List.{list_any};
ghost use Rattle.gw_expr.specs.Term.{holds_of_token};
ghost use Rattle.gw_model.specs.declared.named.Needed.{Needed};
ghost use Rattle.gw_model.specs.Named.{holds_in, holds_of, holds_of_term, holds_of_value, name_in, needed_in};

use gw_expr::{Atom, Expr, Subject, Token};
use gw_meaning::{Body, Numbered};
use gw_names::{Class, DefinitionVerb, Name};

/// What a name that an operand has must be.
#[derive(Clone, Copy)]
pub(crate) enum Needed {
    /// The label of a block.
    Block,
    /// That of a definition with this verb.
    Definition(DefinitionVerb),
}

/// A test of what an operand names.
pub(crate) trait Test {
    ghost holds: { Self → Needed → Option (List ℕ) → Bool };

    /// Whether it holds of what is needed and of the name, where there is one.
    fn holds(&self, needed: Needed, name: Option<&Name>) -> bool
        ensures { result ≡ holds self.now needed (option_copied name.entry) };
}

/// Whether a test holds of something that these statements name.
pub(crate) fn any_named<T: Test>(lines: &[Numbered], test: &T) -> bool
    ensures { result ≡ list_any (holds_in (T.holds test.now)) lines.now }
{
    lines.iter().any(|line| holds_in(line, test))
}

fn holds_in<T: Test>(line: &Numbered, test: &T) -> bool
    ensures { result ≡ holds_in (T.holds test.now) line.now }
{
    match &line.statement.body {
        Body::Block(block) => block
            .operands
            .as_slice()
            .iter()
            .any(|operand| holds_of(operand.as_ref(), test)),
        Body::Definition(definition) => holds_of(definition.operand(), test),
        Body::Command(_) => false,
    }
}

fn holds_of<T: Test>(operand: Option<&Expr>, test: &T) -> bool
    ensures { result ≡ holds_of (T.holds test.now) (option_copied operand.entry) }
{
    match operand {
        Some(expr) => holds_of_term(expr, test),
        None => false,
    }
}

fn holds_of_term<T: Test>(expr: &Expr, test: &T) -> bool
    ensures { result ≡ holds_of_term (T.holds test.now) expr.now }
{
    match expr {
        Expr::Label(name) => test.holds(Needed::Block, Some(name)),
        Expr::Defined(name) => test.holds(
            Needed::Definition(DefinitionVerb::Storage),
            Some(name.name()),
        ),
        Expr::Table(name) => test.holds(Needed::Definition(DefinitionVerb::Table), Some(name)),
        Expr::Value(atom) => holds_of_value(atom, test),
        Expr::Computed(tokens) => holds_of_some(tokens.as_slice(), test),
        Expr::Named(_) | Expr::Fraction(_) | Expr::Order(_) => false,
    }
}

fn holds_of_some<T: Test>(tokens: &[Token], test: &T) -> bool
    ensures { result ≡ list_any (holds_of_token (holds_of_value (T.holds test.now))) tokens.now }
{
    tokens.iter().any(|token| holds_of_token(token, test))
}

fn holds_of_token<T: Test>(token: &Token, test: &T) -> bool
    ensures { result ≡ holds_of_token (holds_of_value (T.holds test.now)) token.now }
{
    match token {
        Token::Value(atom) => holds_of_value(atom, test),
        Token::Negated | Token::Applied(_) => false,
    }
}

fn holds_of_value<T: Test>(atom: &Atom, test: &T) -> bool
    ensures { result ≡ holds_of_value (T.holds test.now) atom.now }
{
    match atom {
        Atom::Constant(_) => false,
        Atom::Number(name) => test.holds(Needed::Definition(DefinitionVerb::Equ), Some(name)),
        Atom::Attribute(class, of) => match needed_in(*class) {
            Some(needed) => test.holds(needed, name_in(of)),
            None => false,
        },
    }
}

// What the attributes of a class are of, where that must be there.
fn needed_in(class: Class) -> Option<Needed>
    ensures { result ≡ needed_in class }
{
    match class {
        Class::N | Class::W => Some(Needed::Block),
        Class::S | Class::R | Class::Sc | Class::Sm => Some(Needed::Definition(
            DefinitionVerb::Storage,
        )),
        Class::Tc => Some(Needed::Definition(DefinitionVerb::Table)),
        Class::V => Some(Needed::Definition(DefinitionVerb::Variable)),
        Class::Fn => Some(Needed::Definition(DefinitionVerb::Function)),
        _ => None,
    }
}

// The name of what an attribute is of, where it has one.
fn name_in(of: &Subject) -> Option<&Name>
    ensures { option_copied result ≡ name_in of.now }
{
    match of {
        Subject::Name(name) => Some(name),
        Subject::Own | Subject::Number(_) => None,
    }
}
