ghost use Rattle.std.specs.Prelude.{◌≡◌, ◌<◌, ◌^◌, ◌-◌, ◌++◌, ◌∷◌, [], OnOk, IfOk, option_copied};
ghost use Rattle.std.specs.List.{flat_map};
ghost use Rattle.indexmap.specs.IndexSet.{insert_all};
ghost use Rattle.gw_names.specs.Keys.{key_eq};
ghost use Rattle.gw_meaning.specs.Listing.{label_at, number_at};
ghost use Rattle.gw_report.specs.Layout.{row_of, rows_of, heading_of};
ghost use Rattle.gw_report.specs.Names.{name_columns, name_line, name_lines, names_in, names_of, names_text};
ghost use Rattle.gw_report.specs.Names.{names_in_atom, names_in_operand, names_in_term, names_in_token, next_behind};
ghost use Rattle.gw_report.specs.NameKeys.{as_keys, names_among};

use crate::column::{Cell, Column, Side, put_row};
use crate::position::position_of;
use crate::section::put_section;
use crate::sheet::Sheet;
use gw_expr::{Atom, Expr, Subject, Token};
use gw_meaning::{Body, Numbered};
use gw_model::Version;
use gw_names::{Key, Name};
use indexmap::IndexSet;
use std::alloc::{AllocError, Global};

const NAME_COLUMNS: [Column; 2] = [Column(10, Side::Left), Column(10, Side::Right)];

// The first value of a name that labels no block.
const FIRST_VALUE: u64 = 10_000;

/// Appends the names, each once, in order of first appearance.
pub(crate) fn put_names(out: &mut Vec<u8>, version: &Version) -> Result<(), AllocError>
    ensures { OnOk result (out.new.items ≡ out.old.items ++ names_text version.now) }
{
    let alloc = *out.allocator();
    let names = names_of(alloc, version)?;
    let lines = name_lines(alloc, version, names.as_slice())?;
    put_section(out, name_heading(), lines.as_slice())
}

// The heading of the section.
#[tactic(auto, unfolding(crate::specs::Layout::heading_of, crate::specs::Layout::row_of))]
fn name_heading() -> &'static [u8]
    ensures { result.now ≡ heading_of name_columns }
{
    b"NAME            VALUE\n"
}

// The names of a version.
fn names_of(alloc: Global, version: &Version) -> Result<IndexSet<Key>, AllocError>
    ensures { IfOk result (λ names. names.keys ≡ as_keys (names_in version.now)) }
{
    let mut names = IndexSet::new(alloc);
    for line in version.lines() {
        add_statement(&mut names, line)?;
    }
    Ok(names)
}

// Adds what a statement names: its label, and then what its operands name.
fn add_statement(names: &mut IndexSet<Key>, line: &Numbered) -> Result<(), AllocError>
    ensures { OnOk result (names.new.keys ≡ insert_all key_eq names.old.keys (as_keys (names_of line.now))) }
{
    if let Some(label) = &line.statement.label {
        add_name(names, label)?;
    }
    match &line.statement.body {
        Body::Block(block) => add_operands(names, block.operands.as_slice()),
        Body::Definition(definition) => add_operand(names, definition.operand()),
        Body::Command(_) => Ok(()),
    }
}

// Adds what operands name, from left to right.
fn add_operands(names: &mut IndexSet<Key>, operands: &[Option<Expr>]) -> Result<(), AllocError>
    ensures { OnOk result (names.new.keys ≡
        insert_all key_eq names.old.keys (as_keys (flat_map names_in_operand operands.now))) }
{
    for operand in operands {
        add_operand(names, operand.as_ref())?;
    }
    Ok(())
}

// Adds what an operand names.
fn add_operand(names: &mut IndexSet<Key>, operand: Option<&Expr>) -> Result<(), AllocError>
    ensures { OnOk result (names.new.keys ≡
        insert_all key_eq names.old.keys (as_keys (names_in_operand (option_copied operand.entry)))) }
{
    match operand {
        Some(expr) => add_term(names, expr),
        None => Ok(()),
    }
}

fn add_term(names: &mut IndexSet<Key>, expr: &Expr) -> Result<(), AllocError>
    ensures { OnOk result (names.new.keys ≡ insert_all key_eq names.old.keys (as_keys (names_in_term expr.now))) }
{
    match expr {
        Expr::Value(atom) => add_atom(names, atom),
        Expr::Computed(tokens) => add_tokens(names, tokens.as_slice()),
        Expr::Named(name) => add_name(names, name.name()),
        Expr::Label(name) => add_name(names, name),
        Expr::Defined(name) => add_name(names, name.name()),
        Expr::Table(name) => add_name(names, name),
        Expr::Fraction(_) | Expr::Order(_) => Ok(()),
    }
}

// Adds what an expression names, from left to right.
fn add_tokens(names: &mut IndexSet<Key>, tokens: &[Token]) -> Result<(), AllocError>
    ensures { OnOk result (names.new.keys ≡
        insert_all key_eq names.old.keys (as_keys (flat_map names_in_token tokens.now))) }
{
    for token in tokens {
        add_token(names, token)?;
    }
    Ok(())
}

fn add_token(names: &mut IndexSet<Key>, token: &Token) -> Result<(), AllocError>
    ensures { OnOk result (names.new.keys ≡
        insert_all key_eq names.old.keys (as_keys (names_in_token token.now))) }
{
    match token {
        Token::Value(atom) => add_atom(names, atom),
        Token::Negated | Token::Applied(_) => Ok(()),
    }
}

// Adds what a value names.
fn add_atom(names: &mut IndexSet<Key>, atom: &Atom) -> Result<(), AllocError>
    ensures { OnOk result (names.new.keys ≡ insert_all key_eq names.old.keys (as_keys (names_in_atom atom.now))) }
{
    match atom {
        Atom::Number(name) | Atom::Attribute(_, Subject::Name(name)) => add_name(names, name),
        Atom::Constant(_) | Atom::Attribute(..) => Ok(()),
    }
}

// Adds a name, unless it is there.
fn add_name(names: &mut IndexSet<Key>, name: &Name) -> Result<(), AllocError>
    ensures { OnOk result (names.new.keys ≡ insert_all key_eq names.old.keys (as_keys (name.now ∷ []))) }
{
    names.insert(Key::Named(name.clone()?))?;
    Ok(())
}

// The lines of the names.
fn name_lines(alloc: Global, version: &Version, names: &[Key]) -> Result<Sheet, AllocError>
    ensures { IfOk result (λ lines. lines ≡
        rows_of name_columns (name_lines version.now 10000 (names_among names.now))) }
{
    let mut lines = Sheet::new(alloc);
    let mut next = FIRST_VALUE;
    for key in names {
        if let Key::Named(name) = key {
            next = put_name(&mut lines, version, next, name)?;
        }
    }
    Ok(lines)
}

// The line of a name. Returns the next value after it.
#[tactic(auto, unfolding(crate::specs::Layout::row_of))]
fn put_name(out: &mut Sheet, version: &Version, next: u64, name: &Name) -> Result<u64, AllocError>
    requires { next < 2 ^ 64 - 1 }
    ensures row { OnOk result (out.new ≡ out.old ++
        row_of name_columns (name_line version.now next name.now)) }
    ensures next { IfOk result (λ n. n ≡
        next_behind next (number_at version.now name.now) (label_at version.now name.now)) }
{
    let (value, behind) = match (version.number_of(name), version.label(name)) {
        (Some(number), _) => (Cell::Signed(number), next),
        (None, Some(id)) => (Cell::Number(position_of(version, Some(id))), next),
        (None, None) => (Cell::Number(next), next + 1),
    };
    let cells = [Cell::Text(name.as_bytes()), value];
    put_row(out, &NAME_COLUMNS, &cells)?;
    Ok(behind)
}
