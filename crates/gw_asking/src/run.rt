// What a step asks, of a version and a seed.
ghost use Rattle.std.specs.Prelude.{◌≡◌, IfOk, OnOk, OnErr, Some, None, if◌then◌else◌, option_copied, nat_le};
ghost use Rattle.gw_meaning.specs.declared.item.Asked.TheVariants as asking;
ghost use Rattle.gw_meaning.specs.declared.item.Item.TheVariants as items;
ghost use Rattle.gw_asking.specs.Noted.{Asks, Tries};
ghost use Rattle.gw_meaning.specs.Listing.{argument_at, block_at, after_at, label_at, number_at, capacity_at, command_at, generates_in};

use crate::notes::Notes;
use gw_expr::Expr;
use gw_meaning::{Asked, Block, Command, Item, StatementId, Transaction};
use gw_model::Version;
use gw_names::Name;
use gw_nums::{Clock, Time, Val};
use std::alloc::{AllocError, Global};

/// The version and the seed that a run is of, and where a step finds memory.
#[derive(Clone, Copy)]
pub struct Run<'a> {
    /// Where a step finds memory.
    pub alloc: Global,
    /// The version that is asked.
    pub version: &'a Version,
    /// The seed of the replication, 1 to 2,147,483,646.
    pub seed: u64,
}

/// Which block is this?
pub fn ask_block<'a>(
    version: &'a Version,
    notes: &mut Notes,
    id: StatementId,
) -> Result<Option<&'a Block>, AllocError>
    ensures answer { IfOk result (λ block. option_copied block ≡ block_at version.now id) }
    ensures ok { OnOk result (Asks notes.old (items.Block id) notes.new) }
    ensures err { OnErr result (notes.new ≡ notes.old) }
{
    notes.note(&Item::Block(id))?;
    Ok(version.block(id))
}

// Which block comes after this one?
fn ask_after(
    version: &Version,
    notes: &mut Notes,
    id: StatementId,
) -> Result<Option<StatementId>, AllocError>
    ensures answer { IfOk result (λ after. after ≡ after_at version.now id) }
    ensures ok { OnOk result (Asks notes.old (items.After id) notes.new) }
    ensures err { OnErr result (notes.new ≡ notes.old) }
{
    notes.note(&Item::After(id))?;
    Ok(version.after(id))
}

/// Which block does a transaction try: the one that it goes to, or else the one after its own?
#[inline(always)]
pub fn ask_next(
    version: &Version,
    notes: &mut Notes,
    x: &Transaction,
) -> Result<Option<StatementId>, AllocError>
    ensures ok { IfOk result (λ id. Tries version.now x.now x.now.destination id notes.old notes.new) }
    ensures err { OnErr result (notes.new ≡ notes.old) }
{
    match x.destination.id() {
        Some(id) => Ok(Some(id)),
        None => ask_after(version, notes, x.current),
    }
}

/// Which block has this label?
pub fn ask_label(
    version: &Version,
    notes: &mut Notes,
    name: &Name,
) -> Result<Option<StatementId>, AllocError>
    ensures answer { IfOk result (λ id. id ≡ label_at version.now name.now) }
    ensures ok { OnOk result (Asks notes.old (items.Named asking.Label name.now) notes.new) }
    ensures err { OnErr result (notes.new ≡ notes.old) }
{
    notes.note_asked(Asked::Label, name)?;
    Ok(version.label(name))
}

/// Which number does this name stand for, if any?
#[inline(always)]
pub fn ask_number(
    version: &Version,
    notes: &mut Notes,
    name: &Name,
) -> Result<Option<Val>, AllocError>
    ensures answer { IfOk result (λ number. number ≡ number_at version.now name.now) }
    ensures ok { OnOk result (Asks notes.old (items.Named asking.Number name.now) notes.new) }
    ensures err { OnErr result (notes.new ≡ notes.old) }
{
    notes.note_asked(Asked::Number, name)?;
    Ok(version.number_of(name))
}

/// Do so many units fit into the storage of this name?
pub fn ask_fits(
    version: &Version,
    notes: &mut Notes,
    name: &Name,
    units: u64,
) -> Result<bool, AllocError>
    ensures answer { IfOk result (λ fits. fits ≡ nat_le units (capacity_at version.now name.now)) }
    ensures ok { OnOk result (Asks notes.old (items.Named (asking.Fits units) name.now) notes.new) }
    ensures err { OnErr result (notes.new ≡ notes.old) }
{
    notes.note_asked(Asked::Fits(units), name)?;
    Ok(units <= version.capacity(name))
}

/// How many units does the storage of this name have?
pub fn ask_capacity(version: &Version, notes: &mut Notes, name: &Name) -> Result<u64, AllocError>
    ensures answer { IfOk result (λ capacity. capacity ≡ capacity_at version.now name.now) }
    ensures ok { OnOk result (Asks notes.old (items.Named asking.Storage name.now) notes.new) }
    ensures err { OnErr result (notes.new ≡ notes.old) }
{
    notes.note_asked(Asked::Storage, name)?;
    Ok(version.capacity(name))
}

/// What is the argument of the TABLE of this name?
pub fn ask_argument<'a>(
    version: &'a Version,
    notes: &mut Notes,
    name: &Name,
) -> Result<Option<&'a Expr>, AllocError>
    ensures answer { IfOk result (λ argument. option_copied argument ≡ argument_at version.now name.now) }
    ensures ok { OnOk result (Asks notes.old (items.Named asking.Table name.now) notes.new) }
    ensures err { OnErr result (notes.new ≡ notes.old) }
{
    notes.note_asked(Asked::Table, name)?;
    Ok(version.argument(name))
}

/// Which blocks are GENERATEs?
pub fn ask_generates<'a>(
    version: &'a Version,
    notes: &mut Notes,
) -> Result<&'a [StatementId], AllocError>
    ensures answer { IfOk result (λ ids. ids.now ≡ generates_in version.now.lines) }
    ensures ok { OnOk result (Asks notes.old items.Generates notes.new) }
    ensures err { OnErr result (notes.new ≡ notes.old) }
{
    notes.note(&Item::Generates)?;
    Ok(version.generates())
}

/// What is the i-th command?
pub fn ask_command<'a>(
    version: &'a Version,
    notes: &mut Notes,
    i: u64,
) -> Result<Option<&'a Command>, AllocError>
    ensures answer { IfOk result (λ command. option_copied command ≡ command_at version.now i) }
    ensures ok { OnOk result (Asks notes.old (items.Cmd i) notes.new) }
    ensures err { OnErr result (notes.new ≡ notes.old) }
{
    notes.note(&Item::Cmd(i))?;
    Ok(version.command(i))
}

/// Does this time lie within the horizon? The clock there, if it does.
#[inline(always)]
pub fn ask_within(
    version: &Version,
    notes: &mut Notes,
    time: Time,
) -> Result<Option<Clock>, AllocError>
    ensures answer { IfOk result (λ clock. clock ≡ (if nat_le time version.now.horizon then Some time else None)) }
    ensures ok { OnOk result (Asks notes.old (items.Within time) notes.new) }
    ensures err { OnErr result (notes.new ≡ notes.old) }
{
    notes.note(&Item::Within(time))?;
    Ok(version.within(time))
}
