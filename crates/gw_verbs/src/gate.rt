// GATE: a transaction passes where a condition of an entity holds. Else it goes to a block, or waits for a change of
// the entity where no label stands there.
ghost use Rattle.std.specs.Prelude.{◌≡◌, [], List, Some, None, option_copied};
ghost use Rattle.gw_meaning.specs.declared.watched.Watched.{Watched};
ghost use Rattle.gw_meaning.specs.Entities.{store_at};
ghost use Rattle.gw_meaning.specs.Step.{reads_capacity, kind_of_condition, is_open, gate_at, gate_storage, gate_other, gate_prog};
ghost use Rattle.gw_asking.specs.Deciding.{Comes};
ghost use Rattle.gw_values.specs.Contexts.{DecidesIn};

use crate::entering::pass;
use crate::leading::lead_to;
use gw_asking::{Notes, ask_capacity};
use gw_expr::{Expr, Halt, Row, Stop};
use gw_meaning::{Auxiliary, Condition, EntityKind, Move, StatementId, Watched};
use gw_names::{Key, StorageName};
use gw_state::State;
use gw_values::{Context, entity_traced, keep_once, key_of};

/// GATE: the transaction passes where the condition that the operator says holds of its entity. Else it goes to the
/// block with the label, or, where no label stands there, waits for a change of the entity.
pub fn decide_gate(
    context: Context,
    notes: &mut Notes,
    id: StatementId,
    operator: Auxiliary,
    entity: Option<&Expr>,
    label: Option<&Expr>,
) -> Result<Move, Halt>
    ensures { DecidesIn context.entry (λ s q. gate_prog s q id operator (option_copied entity.entry)
        (option_copied label.entry)) result notes.old notes.new }
{
    let Auxiliary::Gate(condition) = operator else {
        return Err(Halt::stop(Stop::NoNextBlock));
    };
    let Some(expr) = entity else {
        return Err(Halt::stop(Stop::Range));
    };
    match expr {
        Expr::Defined(name) => gate_storage(context, notes, id, condition, name, label),
        _ => gate_other(context, notes, id, condition, expr, label),
    }
}

// A GATE of a facility or a switch. Where it may wait, what is read to find the entity is kept.
fn gate_other(
    context: Context,
    notes: &mut Notes,
    id: StatementId,
    condition: Condition,
    entity: &Expr,
    label: Option<&Expr>,
) -> Result<Move, Halt>
    ensures { DecidesIn context.entry (λ s q. gate_other s q id condition (Some entity.now) (option_copied label.entry))
        result notes.old notes.new }
{
    match label {
        Some(label) => {
            let key = key_of(context, notes, Some(entity))?;
            gate_or_lead(context, notes, id, condition, label, &key, 0)
        }
        None => {
            let mut read = Vec::new(context.run.alloc);
            let key = entity_traced(context, notes, &mut read, entity)?;
            gate_or_wait(context.state, id, condition, key, read, 0)
        }
    }
}

// A GATE of a storage: its capacity is asked for only where the condition hangs on it.
fn gate_storage(
    context: Context,
    notes: &mut Notes,
    id: StatementId,
    condition: Condition,
    name: &StorageName,
    label: Option<&Expr>,
) -> Result<Move, Halt>
    ensures { DecidesIn context.entry (λ s q. gate_storage s id condition (option_copied label.entry) name.now
        (reads_capacity condition)) result notes.old notes.new }
{
    if !reads_capacity(condition) {
        return gate_at(context, notes, id, condition, label, name.key(), 0);
    }
    let capacity = ask_capacity(context.run.version, notes, name.name())?;
    gate_at(context, notes, id, condition, label, name.key(), capacity)
}

// A GATE of the storage with a key, which has so many units.
fn gate_at(
    context: Context,
    notes: &mut Notes,
    id: StatementId,
    condition: Condition,
    label: Option<&Expr>,
    key: &Key,
    capacity: u64,
) -> Result<Move, Halt>
    ensures { DecidesIn context.entry (λ s q. gate_at s id condition (option_copied label.entry) key.now [] capacity)
        result notes.old notes.new }
{
    match label {
        Some(label) => gate_or_lead(context, notes, id, condition, label, key, capacity),
        None => {
            let read = Vec::new(context.run.alloc);
            gate_or_wait(context.state, id, condition, key.clone()?, read, capacity)
        }
    }
}

// On where the condition holds of the entity with a key, and else to the block with the label.
fn gate_or_lead(
    context: Context,
    notes: &mut Notes,
    id: StatementId,
    condition: Condition,
    label: &Expr,
    key: &Key,
    capacity: u64,
) -> Result<Move, Halt>
    ensures { (read : List Watched) → DecidesIn context.entry
        (λ s q. gate_at s id condition (Some label.now) key.now read capacity) result notes.old notes.new }
{
    if is_open(context.state, condition, key, capacity) {
        return Ok(pass(id));
    }
    lead_to(context.run, notes, id, Some(label))
}

// On where the condition holds of the entity with a key; else the transaction waits for a change of it, and of what was
// read to find it.
fn gate_or_wait(
    state: &State,
    id: StatementId,
    condition: Condition,
    key: Key,
    read: Vec<Watched>,
    capacity: u64,
) -> Result<Move, Halt>
    ensures { Comes (gate_at state.now id condition None key read.items capacity) result }
{
    if is_open(state, condition, &key, capacity) {
        return Ok(pass(id));
    }
    let mut read = read;
    keep_once(&mut read, Watched::Entity(kind_of(condition), key))?;
    let read = Row::from_vec(read);
    Ok(Move::Watch { read })
}

// Whether a condition holds of the entity with a key.
fn is_open(state: &State, condition: Condition, key: &Key, capacity: u64) -> bool
    ensures { result ≡ is_open state.now condition key.now capacity }
{
    match condition {
        Condition::InUse => state.entities().facility(key).owner().is_some(),
        Condition::NotInUse => state.entities().facility(key).owner().is_none(),
        Condition::IsSet => state.entities().is_set(key),
        Condition::IsReset => !state.entities().is_set(key),
        Condition::Empty => units_in_use(state, key) == 0,
        Condition::NotEmpty => units_in_use(state, key) != 0,
        Condition::Full => capacity <= units_in_use(state, key),
        Condition::NotFull => units_in_use(state, key) < capacity,
    }
}

// How many units of a storage are in use.
fn units_in_use(state: &State, key: &Key) -> u64
    ensures { result ≡ (store_at state.now.entities key.now).level.content }
{
    state.entities().storage(key).level().content()
}

// Whether a condition hangs on the capacity of its storage.
fn reads_capacity(condition: Condition) -> bool
    ensures { result ≡ reads_capacity condition }
{
    match condition {
        Condition::Full | Condition::NotFull => true,
        _ => false,
    }
}

// The kind of entity that a condition is of.
fn kind_of(condition: Condition) -> EntityKind
    ensures { result ≡ kind_of_condition condition }
{
    match condition {
        Condition::InUse | Condition::NotInUse => EntityKind::Facility,
        Condition::IsSet | Condition::IsReset => EntityKind::Switch,
        Condition::Empty | Condition::NotEmpty => EntityKind::Storage,
        Condition::Full | Condition::NotFull => EntityKind::Storage,
    }
}
