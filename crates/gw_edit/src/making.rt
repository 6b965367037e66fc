ghost use Rattle.std.specs.Prelude.{◌≡◌, ◌≤◌, ◌+◌, length, IfOk, IsTrue};
ghost use Rattle.gw_model.specs.Spliced.{with_splice};
ghost use Rattle.gw_lines.specs.Printed.{storage_of};
ghost use Rattle.gw_edit.specs.Applied.{applied, checked, insert_made, delete_made, change_made, capacity_made, seed_made, replicate_made, drop_made, horizon_made};
ghost use Rattle.gw_edit.specs.Faults.{Gives};

use crate::fault::{EditFault, of_model};
use crate::replications::{reseeded, with_replication, without_number};
use crate::text::spelled_by;
use gw_expr::Row;
use gw_lines::LineFault;
use gw_meaning::{Body, Definition, Edit, Replication, Statement};
use gw_model::Version;
use gw_names::Name;
use gw_nums::put_decimal;
use gw_touch::storage_place;
use std::alloc::{AllocError, Global};

/// The edited version, or the first refusal, in the order E1, E4, E5, E6, E2, E3. E7 may come in place of any.
/// The version itself stays as it is.
pub fn apply(alloc: Global, version: &Version, edit: &Edit) -> Result<Version, EditFault>
    // What is answered is what the edit makes, or out of memory.
    ensures { Gives result (applied version.now edit.now) }
{
    match edit {
        Edit::Insert { place, text } => insert(alloc, version, *place, text.as_slice()),
        Edit::Delete { place } => delete(alloc, version, *place),
        Edit::Change { place, text } => change(alloc, version, *place, text.as_slice()),
        Edit::Capacity { name, amount } => capacity(alloc, version, name, *amount),
        Edit::Seed { replication, seed } => reseed(alloc, version, *replication, *seed),
        Edit::Replicate { replication, seed } => replicate(alloc, version, *replication, *seed),
        Edit::Drop { replication } => drop_replication(alloc, version, *replication),
        Edit::Horizon { time } => move_horizon(alloc, version, *time),
    }
}

fn insert(alloc: Global, version: &Version, place: u64, text: &[u8]) -> Result<Version, EditFault>
    ensures { Gives result (insert_made version.now place text.now) }
{
    if place < 1 || (version.statements() as u64 + 1) < place {
        return Err(EditFault::NoSuchPlace);
    }
    let statement = spelled_by(alloc, text)?;
    splice(alloc, version, place, false, Some(statement))
}

fn delete(alloc: Global, version: &Version, place: u64) -> Result<Version, EditFault>
    ensures { Gives result (delete_made version.now place) }
{
    if place < 1 || (version.statements() as u64) < place {
        return Err(EditFault::NoSuchPlace);
    }
    splice(alloc, version, place, true, None)
}

fn change(alloc: Global, version: &Version, place: u64, text: &[u8]) -> Result<Version, EditFault>
    ensures { Gives result (change_made version.now place text.now) }
{
    if place < 1 || (version.statements() as u64) < place {
        return Err(EditFault::NoSuchPlace);
    }
    let statement = spelled_by(alloc, text)?;
    splice(alloc, version, place, true, Some(statement))
}

fn capacity(
    alloc: Global,
    version: &Version,
    name: &Name,
    amount: u64,
) -> Result<Version, EditFault>
    ensures { Gives result (capacity_made version.now name.now amount) }
{
    let Some(place) = storage_place(version.lines(), name) else {
        return Err(EditFault::NoSuchStorage);
    };
    if amount < 1 || 1_000_000_000 < amount {
        return Err(EditFault::BadStatement(LineFault::BadOperand(1)));
    }
    let storage = storage_of(alloc, name, amount)?;
    splice(alloc, version, place, true, Some(storage))
}

// The storage of a name with so many units.
fn storage_of(alloc: Global, name: &Name, amount: u64) -> Result<Statement, AllocError>
    ensures { IfOk result (λ s. s ≡ storage_of name.now amount) }
{
    let mut digits = Vec::new(alloc);
    put_decimal(&mut digits, amount)?;
    Ok(Statement {
        label: Some(name.clone()?),
        body: Body::Definition(Definition::Storage { capacity: amount }),
        operands: Row::from_vec(digits),
    })
}

fn reseed(alloc: Global, version: &Version, number: u64, seed: u64) -> Result<Version, EditFault>
    ensures { Gives result (seed_made version.now number seed) }
{
    if version.seed(number).is_none() {
        return Err(EditFault::NoSuchReplication);
    }
    with_replications(version, reseeded(alloc, version, number, seed)?)
}

fn replicate(alloc: Global, version: &Version, number: u64, seed: u64) -> Result<Version, EditFault>
    ensures { Gives result (replicate_made version.now number seed) }
{
    if version.seed(number).is_some() {
        return Err(EditFault::ReplicationTwice);
    }
    with_replications(version, with_replication(alloc, version, number, seed)?)
}

fn drop_replication(alloc: Global, version: &Version, number: u64) -> Result<Version, EditFault>
    ensures { Gives result (drop_made version.now number) }
{
    if version.seed(number).is_none() {
        return Err(EditFault::NoSuchReplication);
    }
    with_replications(version, without_number(alloc, version, number)?)
}

#[tactic(auto, using(crate::proofs::Checking::refused_by), unfolding(crate::specs::Applied::checked))]
fn move_horizon(alloc: Global, version: &Version, time: u64) -> Result<Version, EditFault>
    ensures { Gives result (horizon_made version.now time) }
{
    match version.with_horizon(alloc, time) {
        Ok(new) => Ok(new),
        Err(fault) => Err(of_model(fault)),
    }
}

// The version with one splice, unless it has a fault.
#[tactic(auto, using(crate::proofs::Checking::refused_by), unfolding(crate::specs::Applied::checked))]
fn splice(
    alloc: Global,
    version: &Version,
    place: u64,
    deletes: bool,
    inserts: Option<Statement>,
) -> Result<Version, EditFault>
    requires first { 1 ≤ place }
    requires last { place ≤ length version.now.lines + 1 }
    requires there { IsTrue deletes → place ≤ length version.now.lines }
    ensures { Gives result (checked (with_splice version.now place deletes inserts)) }
{
    match version.with_splice(alloc, place, deletes, inserts) {
        Ok(new) => Ok(new),
        Err(fault) => Err(of_model(fault)),
    }
}

// The version with other replications, unless it has a fault.
#[tactic(auto, using(crate::proofs::Checking::refused_by), unfolding(crate::specs::Applied::checked))]
fn with_replications(
    version: &Version,
    replications: Vec<Replication>,
) -> Result<Version, EditFault>
    ensures { Gives result (checked (record version.now { replications = replications.items })) }
{
    match version.with_replications(replications) {
        Ok(new) => Ok(new),
        Err(fault) => Err(of_model(fault)),
    }
}
