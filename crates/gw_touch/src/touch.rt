ghost use Rattle.std.specs.Prelude.{◌≡◌, IfOk, ◌++◌, [], ◌∷◌, Some, None, option_copied};
ghost use Rattle.gw_meaning.specs.Listing.{definition_of};
ghost use Rattle.gw_touch.specs.Touching.{touching_of, capacity_probes, definition_slot, other_change, one_name, same_number, same_expression, same_curve, same_argument, rest_probes, seed_touching, seed_probes, everywhere, given, one_if, label_if, block_slots, block_before, command_from, line_probes, probes_of, splice_probes, block_change, same_seed};

use crate::lines::{count_commands, last_block, line_at, lines_before, storage_place};
use crate::same::{same_first, same_function, same_label, same_statement, same_term};
use gw_expr::{Expr, Function};
use gw_meaning::{Asked, Body, Definition, Edit, Item, Numbered, Statement, StatementId};
use gw_model::Version;
use gw_names::Name;
use gw_nums::{Time, Val};
use std::alloc::AllocError;
use std::marker::Model;

/// Items that a run may have asked for. Blocks go by their statement ids.
#[derive(Drop)]
pub enum Probe {
    /// This item.
    One(Item),
    /// The command of this number, from 1, and all after it.
    CommandsFrom(u64),
    /// The clock steps beyond this time.
    Beyond(Time),
    /// The amounts asked of the storage of this name that fit one of two capacities and not the other, and the capacity
    /// where the two differ: all, where there is no storage before or after.
    Amounts {
        name: Name,
        from: Option<u64>,
        to: Option<u64>,
    },
}

/// What an edit touches: at most ten probes in every replication, and the seed in one of them, if any.
#[derive(Drop)]
pub struct Touch {
    // Those of the deleted statement, or of an edit of no statement.
    pub(crate) first: Probes,
    // Those of the inserted statement.
    pub(crate) rest: Probes,
    // The replication that has another seed.
    pub(crate) reseeded: Option<u64>,
}

/// At most five probes.
pub type Probes = [Option<Probe>; 5];

impl Model for Touch {
    ghost use Rattle.std.specs.Prelude.{◌++◌};
    ghost use Rattle.gw_touch.specs.Touching.{Touching, given};

    ghost Value = { Touching };

    ghost view = { λ t. record { probes = given t.first ++ given t.rest; reseeded = t.reseeded } };
}

/// What the edit of a version to a new one touches. It shares the names of labels.
pub fn touch_of(old: &Version, edit: &Edit, new: &Version) -> Result<Touch, AllocError>
    ensures { IfOk result (λ touch. touch ≡ touching_of old.now edit.now new.now) }
{
    match edit {
        Edit::Insert { place, .. } => splice_touch(old, *place, None, line_at(new.lines(), *place)),
        Edit::Delete { place } => splice_touch(old, *place, line_at(old.lines(), *place), None),
        Edit::Change { place, .. } => splice_touch(
            old,
            *place,
            line_at(old.lines(), *place),
            line_at(new.lines(), *place),
        ),
        Edit::Seed { replication, .. } => Ok(seed_touch(
            *replication,
            old.seed(*replication),
            new.seed(*replication),
        )),
        Edit::Horizon { .. } => Ok(alone(Some(Probe::Beyond(old.horizon().min(new.horizon()))))),
        Edit::Capacity { name, .. } => capacity_touch(old, storage_place(old.lines(), name), new),
        Edit::Replicate { .. } | Edit::Drop { .. } => Ok(alone(None)),
    }
}

// The probes of a deleted statement, or of no statement, and those of an inserted one.
fn both(first: Probes, rest: Probes) -> Touch
    ensures { result ≡ everywhere (given first ++ given rest) }
{
    Touch {
        first,
        rest,
        reseeded: None,
    }
}

// At most one probe.
fn alone(probe: Option<Probe>) -> Touch
    ensures { result ≡ everywhere (given (probe ∷ [])) }
{
    both(two(probe, None), two(None, None))
}

// At most two probes.
fn two(first: Option<Probe>, second: Option<Probe>) -> Probes
    ensures { given result ≡ given (first ∷ second ∷ []) }
{
    [first, second, None, None, None]
}

// A replication's seed, before and after.
fn seed_touch(replication: u64, old: Option<u64>, new: Option<u64>) -> Touch
    ensures { result ≡ seed_touching replication old new }
{
    if same_seed(old, new) {
        alone(None)
    } else {
        Touch {
            first: two(None, None),
            rest: two(None, None),
            reseeded: Some(replication),
        }
    }
}

/// The seed, where the replication is the one that has another seed.
pub(crate) fn seed_probe(reseeded: Option<u64>, replication: u64) -> Option<Probe>
    ensures { given (result ∷ []) ≡ seed_probes reseeded replication }
{
    match reseeded {
        Some(number) => {
            if number == replication {
                Some(Probe::One(Item::Seed))
            } else {
                None
            }
        }
        None => None,
    }
}

// A line that is deleted at a place, if any, and one that is inserted, if any.
fn splice_touch(
    version: &Version,
    place: u64,
    deleted: Option<&Numbered>,
    inserted: Option<&Numbered>,
) -> Result<Touch, AllocError>
    ensures { IfOk result (λ touch. touch ≡ everywhere
        (splice_probes version.now place (option_copied deleted.entry) (option_copied inserted.entry))) }
{
    match (deleted, inserted) {
        (Some(old), Some(new)) => change_touch(version, place, old, new),
        _ => Ok(both(
            probes_of(version, place, deleted)?,
            probes_of(version, place, inserted)?,
        )),
    }
}

fn probes_of(version: &Version, place: u64, line: Option<&Numbered>) -> Result<Probes, AllocError>
    ensures { IfOk result (λ probes. given probes ≡ probes_of version.now place (option_copied line.entry)) }
{
    match line {
        Some(line) => line_probes(version, place, line),
        None => Ok(two(None, None)),
    }
}

fn line_probes(version: &Version, place: u64, line: &Numbered) -> Result<Probes, AllocError>
    ensures { IfOk result (λ probes. given probes ≡ line_probes version.now place line.now) }
{
    if line.is_block() {
        block_probes(block_before(version, place), line)
    } else {
        rest_probes(version, place, line)
    }
}

// A command or a definition that is inserted or deleted.
fn rest_probes(version: &Version, place: u64, line: &Numbered) -> Result<Probes, AllocError>
    ensures { IfOk result (λ probes. given probes ≡ rest_probes version.now place line.now) }
{
    if line.is_command() {
        let commands = Probe::CommandsFrom(command_from(version, place));
        Ok(two(Some(commands), None))
    } else {
        Ok(two(definition_slot(line)?, None))
    }
}

// What a definition that is inserted or deleted touches: what is asked of its name.
fn definition_slot(line: &Numbered) -> Result<Option<Probe>, AllocError>
    ensures { IfOk result (λ probe. probe ≡
        definition_slot line.now.statement.label (definition_of line.now)) }
{
    match (&line.statement.label, line.definition()) {
        (Some(name), Some(Definition::Storage { .. })) => Ok(Some(Probe::Amounts {
            name: name.clone()?,
            from: None,
            to: None,
        })),
        (Some(name), Some(Definition::Equ { .. })) => {
            Ok(Some(Probe::One(Item::Named(Asked::Number, name.clone()?))))
        }
        (Some(name), Some(Definition::Variable { .. })) => {
            Ok(Some(Probe::One(Item::Named(Asked::Variable, name.clone()?))))
        }
        (Some(name), Some(Definition::Function(_))) => {
            Ok(Some(Probe::One(Item::Named(Asked::Function, name.clone()?))))
        }
        (Some(name), Some(Definition::Table(_))) => {
            Ok(Some(Probe::One(Item::Named(Asked::Table, name.clone()?))))
        }
        _ => Ok(None),
    }
}

// A block that is inserted or deleted after the block in front of it.
fn block_probes(front: Option<StatementId>, line: &Numbered) -> Result<Probes, AllocError>
    ensures { IfOk result (λ probes. probes ≡ block_slots front line.now) }
{
    let label = label_if(true, &line.statement.label)?;
    Ok([
        front.map(|id| Probe::One(Item::After(id))),
        Some(Probe::One(Item::Block(line.number))),
        Some(Probe::One(Item::After(line.number))),
        one_if(line.is_generate(), Item::Generates),
        label,
    ])
}

// An item, where it is wanted.
fn one_if(wanted: bool, item: Item) -> Option<Probe>
    ensures { result ≡ one_if wanted item }
{
    if wanted { Some(Probe::One(item)) } else { None }
}

// A label, where there is one and it is wanted.
fn label_if(wanted: bool, label: &Option<Name>) -> Result<Option<Probe>, AllocError>
    ensures { IfOk result (λ probe. probe ≡ label_if wanted label.now) }
{
    match label {
        Some(name) => Ok(one_if(wanted, Item::Named(Asked::Label, name.clone()?))),
        None => Ok(None),
    }
}

// A line that has another statement.
fn change_touch(
    version: &Version,
    place: u64,
    old: &Numbered,
    new: &Numbered,
) -> Result<Touch, AllocError>
    ensures { IfOk result (λ touch. touch ≡ everywhere
        (splice_probes version.now place (Some old.now) (Some new.now))) }
{
    if old.is_block() && new.is_block() {
        block_change(old, new)
    } else {
        other_change(version, place, old, new)
    }
}

// A statement for another one, of which not both are blocks.
fn other_change(
    version: &Version,
    place: u64,
    old: &Numbered,
    new: &Numbered,
) -> Result<Touch, AllocError>
    ensures { IfOk result (λ touch. touch ≡ everywhere
        (other_change (one_name old.now.statement.label new.now.statement.label)
        (definition_of old.now) (definition_of new.now) version.now place old.now new.now)) }
{
    let name = one_name(&old.statement.label, &new.statement.label);
    match (name, &old.statement.body, &new.statement.body) {
        (Some(name), Body::Definition(before), Body::Definition(behind)) => {
            definition_change(version, place, old, new, name, before, behind)
        }
        _ => both_touch(version, place, old, new),
    }
}

// A definition for another one of the same name.
fn definition_change(
    version: &Version,
    place: u64,
    old: &Numbered,
    new: &Numbered,
    name: &Name,
    before: &Definition,
    behind: &Definition,
) -> Result<Touch, AllocError>
    ensures { IfOk result (λ touch. touch ≡ everywhere (other_change (Some name.now) (Some before.now)
        (Some behind.now) version.now place old.now new.now)) }
{
    match (before, behind) {
        (Definition::Storage { capacity: from }, Definition::Storage { capacity: to }) => {
            Ok(alone(Some(Probe::Amounts {
                name: name.clone()?,
                from: Some(*from),
                to: Some(*to),
            })))
        }
        (Definition::Equ { value: a }, Definition::Equ { value: b }) => {
            let same = same_number(&old.statement, &new.statement, *a, *b);
            Ok(alone(one_if(!same, Item::Named(Asked::Number, name.clone()?))))
        }
        (Definition::Variable { expression: a }, Definition::Variable { expression: b }) => {
            let same = same_expression(&old.statement, &new.statement, a, b);
            Ok(alone(one_if(!same, Item::Named(Asked::Variable, name.clone()?))))
        }
        (Definition::Function(a), Definition::Function(b)) => {
            let same = same_curve(&old.statement, &new.statement, a, b);
            Ok(alone(one_if(!same, Item::Named(Asked::Function, name.clone()?))))
        }
        (Definition::Table(a), Definition::Table(b)) => {
            let same = same_argument(&old.statement, &new.statement, &a.argument, &b.argument);
            Ok(alone(one_if(!same, Item::Named(Asked::Table, name.clone()?))))
        }
        _ => both_touch(version, place, old, new),
    }
}

// What the deleted one touches, and what the inserted one.
fn both_touch(
    version: &Version,
    place: u64,
    old: &Numbered,
    new: &Numbered,
) -> Result<Touch, AllocError>
    ensures { IfOk result (λ touch. touch ≡ everywhere
        (line_probes version.now place old.now ++ line_probes version.now place new.now)) }
{
    Ok(both(
        line_probes(version, place, old)?,
        line_probes(version, place, new)?,
    ))
}

// The name that two statements define, where it is one.
fn one_name<'a>(old: &'a Option<Name>, new: &Option<Name>) -> Option<&'a Name>
    ensures { option_copied result ≡ one_name old.now new.now }
{
    match (old, new) {
        (Some(a), Some(b)) if a == b => Some(a),
        _ => None,
    }
}

fn same_number(old: &Statement, new: &Statement, before: Val, behind: Val) -> bool
    ensures { result ≡ same_number old.now new.now before behind }
{
    old.operands.as_slice() == new.operands.as_slice() && before == behind
}

fn same_expression(old: &Statement, new: &Statement, before: &Expr, behind: &Expr) -> bool
    ensures { result ≡ same_expression old.now new.now before.now behind.now }
{
    old.operands.as_slice() == new.operands.as_slice() && same_term(before, behind)
}

fn same_curve(old: &Statement, new: &Statement, before: &Function, behind: &Function) -> bool
    ensures { result ≡ same_curve old.now new.now before.now behind.now }
{
    old.operands.as_slice() == new.operands.as_slice() && same_function(before, behind)
}

fn same_argument(old: &Statement, new: &Statement, before: &Expr, behind: &Expr) -> bool
    ensures { result ≡ same_argument old.now new.now before.now behind.now }
{
    same_first(old.operands.as_slice(), new.operands.as_slice()) && same_term(before, behind)
}

// The storage at a place, if any, with another capacity.
fn capacity_touch(old: &Version, place: Option<u64>, new: &Version) -> Result<Touch, AllocError>
    ensures { IfOk result (λ touch. touch ≡ everywhere (capacity_probes old.now place new.now)) }
{
    match place {
        Some(place) => splice_touch(
            old,
            place,
            line_at(old.lines(), place),
            line_at(new.lines(), place),
        ),
        None => Ok(alone(None)),
    }
}

// A block for a block.
fn block_change(old: &Numbered, new: &Numbered) -> Result<Touch, AllocError>
    ensures { IfOk result (λ touch. touch ≡ everywhere (block_change old.now new.now)) }
{
    let other = !same_statement(&old.statement, &new.statement);
    let generates = other && (old.is_generate() || new.is_generate());
    let relabelled = !same_label(&old.statement.label, &new.statement.label);
    Ok(both(
        two(
            one_if(other, Item::Block(old.number)),
            one_if(generates, Item::Generates),
        ),
        two(
            label_if(relabelled, &old.statement.label)?,
            label_if(relabelled, &new.statement.label)?,
        ),
    ))
}

// The last block in front of a place.
fn block_before(version: &Version, place: u64) -> Option<StatementId>
    ensures { result ≡ block_before version.now place }
{
    last_block(lines_before(version.lines(), place))
}

// Which command the first one from a place on is.
fn command_from(version: &Version, place: u64) -> u64
    ensures { result ≡ command_from version.now place }
{
    count_commands(lines_before(version.lines(), place)) + 1
}

fn same_seed(old: Option<u64>, new: Option<u64>) -> bool
    ensures { result ≡ same_seed old new }
{
    match (old, new) {
        (None, None) => true,
        (Some(old), Some(new)) => old == new,
        _ => false,
    }
}
