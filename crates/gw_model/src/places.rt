ghost use Rattle.std.specs.Prelude.{◌≡◌, ◌==◌, ◌≤◌, ◌<◌, ℕ, IsSome, IfOk, OnOk, get_or, None, Some, if◌then◌else◌, length, option_copied, option_and_then, slice_get};
ghost use Rattle.gw_meaning.specs.Listing.{is_block, block_of, line_in};
ghost use Rattle.gw_model.specs.Tables.{nowhere, place_in, block_found, position_if};

use crate::lists::count_blocks;
use gw_meaning::{Block, Body, Destination, Numbered, StatementId};
use std::alloc::{AllocError, Global};

/// Where a block stands, in eight bytes: it is looked up at each step. An id that no block has stands nowhere.
#[derive(Clone, Copy)]
pub struct Place {
    /// The id of the next block, if there is one.
    pub after: Destination,
    /// Its index among all statements.
    pub index: u16,
    /// Its position among the blocks, from 1; 0 where it stands nowhere.
    pub position: u16,
}

/// For each statement id the place of the first statement with it.
pub(crate) fn places_of(alloc: Global, lines: &[Numbered]) -> Result<Vec<Place>, AllocError>
    requires { length lines.now ≤ 2000 }
    ensures { IfOk result (λ table. (number : ℕ) → get_or table.items number nowhere ≡ place_in 0 0 lines.now number) }
{
    let mut table = Vec::new(alloc);
    let mut index = lines.len();
    let mut before = count_blocks(lines);
    let mut after = Destination::none();
    while index > 0 {
        index -= 1;
        let line = &lines[index];
        if line.is_block() {
            let position = before as u16;
            before -= 1;
            let place = Place {
                after,
                index: index as u16,
                position,
            };
            put(&mut table, line.number, place)?;
            after = Destination::to(line.number);
        } else {
            put(&mut table, line.number, nowhere())?;
        }
    }
    Ok(table)
}

// The place of an id that no block has.
fn nowhere() -> Place
    ensures { result ≡ nowhere }
{
    Place {
        after: Destination::none(),
        index: 0,
        position: 0,
    }
}

// Writes the place of an id, and makes the table longer where it ends before it.
fn put(table: &mut Vec<Place>, id: StatementId, place: Place) -> Result<(), AllocError>
    ensures { OnOk result ((k : ℕ) → get_or table.new.items k nowhere ≡
        (if id == k then place else get_or table.old.items k nowhere)) }
{
    let at = id.number() as usize;
    if at >= table.len() {
        let size = at.checked_add(1).ok_or(AllocError)?;
        table.resize(size, nowhere())?;
    }
    table[at] = place;
    Ok(())
}

/// The block with this id. The table is that of the lines.
#[inline(always)]
pub fn block_of<'a>(lines: &'a [Numbered], table: &[Place], id: StatementId) -> Option<&'a Block>
    requires { (number : ℕ) → get_or table.now number nowhere ≡ place_in 0 0 lines.now number }
    ensures { option_copied result ≡ option_and_then block_of (line_in lines.now id) }
{
    match table.get(id.number() as usize) {
        Some(place) => block_at(lines, place),
        None => None,
    }
}

// The block at a place. The statement at the place of a block is one, so that is not tested.
#[inline(always)]
fn block_at<'a>(lines: &'a [Numbered], place: &Place) -> Option<&'a Block>
    requires { 0 < place.now.position →
        IsSome (option_and_then block_of (slice_get lines.now place.now.index)) }
    ensures { option_copied result ≡ block_found lines.now place.now }
{
    if place.position == 0 {
        return None;
    }
    match &lines[usize::from(place.index)].statement.body {
        Body::Block(block) => Some(block),
        Body::Definition(_) | Body::Command(_) => unreachable!(),
    }
}

/// The id of the block after the block with this id.
#[inline(always)]
pub(crate) fn after_of(table: &[Place], id: StatementId) -> Option<StatementId>
    ensures { result ≡ (get_or table.now id nowhere).after }
{
    match table.get(id.number() as usize) {
        Some(place) => place.after.id(),
        None => None,
    }
}

/// The position of the block with this id, from 1.
pub fn position_of(table: &[Place], id: StatementId) -> Option<u64>
    ensures { result ≡ position_if (get_or table.now id nowhere).position }
{
    match table.get(id.number() as usize) {
        Some(place) => position_if(u64::from(place.position)),
        None => None,
    }
}

// The position that a number stands for.
fn position_if(position: u64) -> Option<u64>
    ensures { result ≡ position_if position }
{
    if position == 0 {
        return None;
    }
    Some(position)
}
