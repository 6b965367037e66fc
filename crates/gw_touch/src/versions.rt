ghost use Rattle.std.specs.Prelude.{◌≡◌, ◌↔◌, IsTrue};
ghost use Rattle.gw_touch.specs.SameVersions.{same_classes, same_table, same_definition, same_stream, same_streams, same_command, same_content, same_line, same_lines, same_replications, same_listing};

use crate::same::{same_block, same_function, same_label, same_term};
use gw_meaning::{Body, Classes, Command, Definition, Numbered, Replication, Table};
use gw_model::Version;

/// Whether two versions are one: the same statements with the same ids, the same horizon, replications and step limit.
/// It goes over both once, statement by statement, up to the first difference.
#[tactic(auto, using(crate::proofs::SameVersionLaws::listings_same, crate::proofs::SameVersionLaws::listing_itself))]
pub fn same_version(one: &Version, other: &Version) -> bool
    ensures { IsTrue result ↔ (one.now ≡ other.now) }
{
    same_listing(one, other)
}

fn same_listing(one: &Version, other: &Version) -> bool
    ensures { result ≡ same_listing one.now other.now }
{
    one.horizon() == other.horizon()
        && one.limit() == other.limit()
        && same_replications(one.replications(), other.replications())
        && same_lines(one.lines(), other.lines())
}

#[tactic(auto, using(crate::proofs::SameVersionLaws::more_replications_than_none))]
fn same_replications(ones: &[Replication], others: &[Replication]) -> bool
    ensures { result ≡ same_replications ones.now others.now }
{
    match (ones, others) {
        ([], []) => true,
        ([], [_, ..]) => false,
        ([_, ..], []) => false,
        ([a, rest @ ..], [b, more @ ..]) => {
            a.number == b.number && a.seed == b.seed && same_replications(rest, more)
        }
    }
}

#[tactic(auto, using(crate::proofs::SameVersionLaws::more_lines_than_none))]
fn same_lines(ones: &[Numbered], others: &[Numbered]) -> bool
    ensures { result ≡ same_lines ones.now others.now }
{
    match (ones, others) {
        ([], []) => true,
        ([], [_, ..]) => false,
        ([_, ..], []) => false,
        ([a, rest @ ..], [b, more @ ..]) => same_line(a, b) && same_lines(rest, more),
    }
}

fn same_line(one: &Numbered, other: &Numbered) -> bool
    ensures { result ≡ same_line one.now other.now }
{
    one.number.number() == other.number.number()
        && same_label(&one.statement.label, &other.statement.label)
        && one.statement.operands.as_slice() == other.statement.operands.as_slice()
        && same_content(&one.statement.body, &other.statement.body)
}

fn same_content(one: &Body, other: &Body) -> bool
    ensures { result ≡ same_content one.now other.now }
{
    match (one, other) {
        (Body::Block(one), Body::Block(other)) => same_block(one, other),
        (Body::Definition(one), Body::Definition(other)) => same_definition(one, other),
        (Body::Command(one), Body::Command(other)) => same_command(one, other),
        _ => false,
    }
}

fn same_definition(one: &Definition, other: &Definition) -> bool
    ensures { result ≡ same_definition one.now other.now }
{
    match (one, other) {
        (Definition::Storage { capacity: one }, Definition::Storage { capacity: other }) => {
            one == other
        }
        (Definition::Equ { value: one }, Definition::Equ { value: other }) => {
            one.get() == other.get()
        }
        (Definition::Variable { expression: one }, Definition::Variable { expression: other }) => {
            same_term(one, other)
        }
        (Definition::Function(one), Definition::Function(other)) => same_function(one, other),
        (Definition::Table(one), Definition::Table(other)) => same_table(one, other),
        _ => false,
    }
}

fn same_table(one: &Table, other: &Table) -> bool
    ensures { result ≡ same_table one.now other.now }
{
    same_term(&one.argument, &other.argument) && same_classes(one.classes, other.classes)
}

fn same_classes(one: Classes, other: Classes) -> bool
    ensures { result ≡ same_classes one other }
{
    one.first().get() == other.first().get()
        && one.width() == other.width()
        && one.count() == other.count()
}

fn same_command(one: &Command, other: &Command) -> bool
    ensures { result ≡ same_command one.now other.now }
{
    match (one, other) {
        (Command::Start { count: one }, Command::Start { count: other }) => one == other,
        (Command::Rmult { values: one }, Command::Rmult { values: other }) => {
            same_streams(one.as_slice(), other.as_slice())
        }
        (Command::Reset, Command::Reset) => true,
        (Command::Clear, Command::Clear) => true,
        _ => false,
    }
}

#[tactic(auto, using(crate::proofs::SameVersionLaws::more_streams_than_none))]
fn same_streams(ones: &[Option<u32>], others: &[Option<u32>]) -> bool
    ensures { result ≡ same_streams ones.now others.now }
{
    match (ones, others) {
        ([], []) => true,
        ([], [_, ..]) => false,
        ([_, ..], []) => false,
        ([a, rest @ ..], [b, more @ ..]) => same_stream(*a, *b) && same_streams(rest, more),
    }
}

fn same_stream(one: Option<u32>, other: Option<u32>) -> bool
    ensures { result ≡ same_stream one other }
{
    match (one, other) {
        (None, None) => true,
        (Some(one), Some(other)) => one == other,
        _ => false,
    }
}
