ghost use Rattle.std.specs.Prelude.{◌≡◌, option_copied};
ghost use Rattle.gw_touch.specs.Same.{same_term, same_operand, same_operands, same_verb, same_auxiliary, same_block, same_body, same_statement, same_label, same_atom, same_value, same_part, same_parts, same_type, same_points, same_function, same_first, kind_of, atom_of, parts_of, order_number, number_of, bytes_of};

use gw_expr::{Atom, Discipline, Expr, Function, FunctionType, Point, Token};
use gw_meaning::{Auxiliary, Block, Body, Statement};
use gw_names::{BlockVerb, Name};

/// Whether both are blocks with the same verb, auxiliary and operands. Labels do not count.
pub fn same_statement(old: &Statement, new: &Statement) -> bool
    ensures { result ≡ same_statement old.now new.now }
{
    old.operands.as_slice() == new.operands.as_slice() && same_body(&old.body, &new.body)
}

fn same_body(old: &Body, new: &Body) -> bool
    ensures { result ≡ same_body old.now new.now }
{
    match (old, new) {
        (Body::Block(old), Body::Block(new)) => same_block(old, new),
        _ => false,
    }
}

pub(crate) fn same_block(old: &Block, new: &Block) -> bool
    ensures { result ≡ same_block old.now new.now }
{
    same_verb(old.verb, new.verb)
        && same_auxiliary(old.auxiliary, new.auxiliary)
        && same_operands(old.operands.as_slice(), new.operands.as_slice())
}

#[tactic(auto, unfolding(crate::specs::Same::same_verb))]
fn same_verb(old: BlockVerb, new: BlockVerb) -> bool
    ensures { result ≡ same_verb old new }
{
    old == new
}

#[tactic(auto, unfolding(crate::specs::Same::same_auxiliary))]
fn same_auxiliary(old: Auxiliary, new: Auxiliary) -> bool
    ensures { result ≡ same_auxiliary old new }
{
    old == new
}

#[tactic(auto, using(crate::proofs::SameBlocks::more_than_none))]
fn same_operands(old: &[Option<Expr>], new: &[Option<Expr>]) -> bool
    ensures { result ≡ same_operands old.now new.now }
{
    match (old, new) {
        ([], []) => true,
        ([], [_, ..]) => false,
        ([_, ..], []) => false,
        ([a, others @ ..], [b, rest @ ..]) => same_operand(a, b) && same_operands(others, rest),
    }
}

fn same_operand(old: &Option<Expr>, new: &Option<Expr>) -> bool
    ensures { result ≡ same_operand old.now new.now }
{
    match (old, new) {
        (None, None) => true,
        (Some(old), Some(new)) => same_term(old, new),
        _ => false,
    }
}

/// Whether both operands are the same, as they are read.
pub(crate) fn same_term(old: &Expr, new: &Expr) -> bool
    ensures { result ≡ same_term old.now new.now }
{
    kind(old) == kind(new)
        && same_value(atom(old), atom(new))
        && same_parts(parts(old), parts(new))
        && number(old) == number(new)
        && bytes(old) == bytes(new)
}

// What tells an operand from all others: its kind, its value, its parts, its number and its bytes.
fn kind(expr: &Expr) -> u8
    ensures { result ≡ kind_of expr.now }
{
    match expr {
        Expr::Value(_) => 0,
        Expr::Computed(_) => 1,
        Expr::Named(_) => 2,
        Expr::Label(_) => 3,
        Expr::Fraction(_) => 4,
        Expr::Defined(_) => 5,
        Expr::Table(_) => 6,
        Expr::Order(_) => 7,
    }
}

fn atom(expr: &Expr) -> Option<&Atom>
    ensures { option_copied result ≡ atom_of expr.now }
{
    match expr {
        Expr::Value(atom) => Some(atom),
        _ => None,
    }
}

fn parts(expr: &Expr) -> &[Token]
    ensures { result.now ≡ parts_of expr.now }
{
    match expr {
        Expr::Computed(tokens) => tokens.as_slice(),
        _ => &[],
    }
}

fn number(expr: &Expr) -> u32
    ensures { result ≡ number_of expr.now }
{
    match expr {
        Expr::Fraction(part) => *part,
        Expr::Order(discipline) => order_number(*discipline),
        _ => 0,
    }
}

// The number that a queue discipline has alone.
fn order_number(discipline: Discipline) -> u32
    ensures { result ≡ order_number discipline }
{
    match discipline {
        Discipline::Fifo => 0,
        Discipline::Lifo => 1,
    }
}

fn bytes(expr: &Expr) -> &[u8]
    ensures { result.now ≡ bytes_of expr.now }
{
    match expr {
        Expr::Named(name) => name.name().as_bytes(),
        Expr::Label(name) => name.as_bytes(),
        Expr::Defined(name) => name.name().as_bytes(),
        Expr::Table(name) => name.as_bytes(),
        _ => b"",
    }
}

fn same_value(old: Option<&Atom>, new: Option<&Atom>) -> bool
    ensures { result ≡ same_value (option_copied old.entry) (option_copied new.entry) }
{
    match (old, new) {
        (None, None) => true,
        (Some(old), Some(new)) => same_atom(old, new),
        _ => false,
    }
}

#[tactic(auto, unfolding(crate::specs::Same::same_atom))]
fn same_atom(old: &Atom, new: &Atom) -> bool
    ensures { result ≡ same_atom old.now new.now }
{
    old == new
}

#[tactic(auto, using(crate::proofs::SameBlocks::more_parts_than_none))]
fn same_parts(old: &[Token], new: &[Token]) -> bool
    ensures { result ≡ same_parts old.now new.now }
{
    match (old, new) {
        ([], []) => true,
        ([], [_, ..]) => false,
        ([_, ..], []) => false,
        ([a, others @ ..], [b, rest @ ..]) => same_part(a, b) && same_parts(others, rest),
    }
}

#[tactic(auto, unfolding(crate::specs::Same::same_part))]
fn same_part(old: &Token, new: &Token) -> bool
    ensures { result ≡ same_part old.now new.now }
{
    old == new
}

/// Whether two labels are one, or neither is there.
pub fn same_label(old: &Option<Name>, new: &Option<Name>) -> bool
    ensures { result ≡ same_label old.now new.now }
{
    match (old, new) {
        (None, None) => true,
        (Some(old), Some(new)) => old == new,
        _ => false,
    }
}

/// Whether two FUNCTIONs have the same argument, type and points.
pub fn same_function(old: &Function, new: &Function) -> bool
    ensures { result ≡ same_function old.now new.now }
{
    same_term(&old.argument, &new.argument)
        && same_type(old.kind, new.kind)
        && old.count == new.count
        && same_points(old.points.as_slice(), new.points.as_slice())
}

#[tactic(auto, unfolding(crate::specs::Same::same_type))]
fn same_type(old: FunctionType, new: FunctionType) -> bool
    ensures { result ≡ same_type old new }
{
    old == new
}

#[tactic(auto, unfolding(crate::specs::Same::same_point))]
fn same_points(old: &[Point], new: &[Point]) -> bool
    ensures { result ≡ same_points old.now new.now }
{
    old == new
}

/// Whether two operand lists begin with one operand, as it is written: it ends in front of a comma.
#[tactic(auto, using(crate::proofs::SameBlocks::more_bytes_than_none))]
pub fn same_first(old: &[u8], new: &[u8]) -> bool
    ensures { result ≡ same_first old.now new.now }
{
    match (old, new) {
        ([], []) => true,
        ([], [b, ..]) => *b == b',',
        ([a, ..], []) => *a == b',',
        ([a, others @ ..], [b, rest @ ..]) => {
            *a == *b && (*a == b',' || same_first(others, rest))
        }
    }
}
