ghost use Rattle.gw_meaning.specs.Listing.{Listing};
ghost use Rattle.std.specs.Prelude.{◌≡◌, ◌++◌, OnOk, IfOk, map};
ghost use Rattle.gw_chains.specs.Chains.{delays_of};
ghost use Rattle.gw_report.specs.Layout.{row_of, rows_of, heading_of};
ghost use Rattle.gw_report.specs.Storages.{units_of, storage_columns, storage_line, storages_text};

use crate::column::{Cell, Column, Side, put_row};
use crate::entity::{average_cell, key_cell};
use crate::section::put_section;
use crate::sheet::Sheet;
use gw_chains::DelayChains;
use gw_entities::Storage;
use gw_meaning::{EntityKind, Watched};
use gw_model::Version;
use gw_names::Key;
use gw_state::State;
use std::alloc::{AllocError, Global};

const STORAGE_COLUMNS: [Column; 11] = [
    Column(10, Side::Left),
    Column(8, Side::Right),
    Column(8, Side::Right),
    Column(8, Side::Right),
    Column(8, Side::Right),
    Column(8, Side::Right),
    Column(4, Side::Right),
    Column(11, Side::Right),
    Column(8, Side::Right),
    Column(5, Side::Right),
    Column(5, Side::Right),
];

/// Appends the storages, in order of first touch, with the units that the version gives them. The delay chains are
/// those of the state.
pub(crate) fn put_storages(
    out: &mut Vec<u8>,
    version: &Version,
    state: &State,
    delays: &DelayChains,
) -> Result<(), AllocError>
    requires { delays_of delays.now ≡ state.now.delays }
    ensures { OnOk result (out.new.items ≡ out.old.items ++ storages_text version.now state.now) }
{
    let lines = storage_lines(*out.allocator(), version, state, delays)?;
    put_section(out, storage_heading(), lines.as_slice())
}

// The heading of the section.
#[tactic(auto, unfolding(crate::specs::Layout::heading_of, crate::specs::Layout::row_of))]
fn storage_heading() -> &'static [u8]
    ensures { result.now ≡ heading_of storage_columns }
{
    b"STORAGE        CAP.     REM.     MIN.     MAX.  ENTRIES AVL.      AVE.C.    UTIL. RETRY DELAY\n"
}

// The lines of the storages.
fn storage_lines(
    alloc: Global,
    version: &Version,
    state: &State,
    delays: &DelayChains,
) -> Result<Sheet, AllocError>
    requires { delays_of delays.now ≡ state.now.delays }
    ensures { IfOk result (λ lines. lines ≡
        rows_of storage_columns (map (storage_line version.now state.now) state.now.entities.storages)) }
{
    let storages = state.entities().storages();
    let mut lines = Sheet::new(alloc);
    for index in 0..storages.len() {
        if let Some((key, storage)) = storages.at(index) {
            let capacity = units_of(version, key);
            put_storage(&mut lines, state, delays, capacity, key, storage)?;
        }
    }
    Ok(lines)
}

// How many units a version gives a storage.
fn units_of(version: &Version, key: &Key) -> u64
    ensures { result ≡ units_of version.now key.now }
{
    match key {
        Key::Defined(name) => version.capacity(name),
        Key::Num(_) | Key::Named(_) => 0,
    }
}

// The line of a storage of so many units.
#[tactic(auto, unfolding(crate::specs::Storages::storage_line, crate::specs::Layout::row_of))]
fn put_storage(
    out: &mut Sheet,
    state: &State,
    delays: &DelayChains,
    capacity: u64,
    key: &Key,
    storage: Storage,
) -> Result<(), AllocError>
    requires { delays_of delays.now ≡ state.now.delays }
    ensures { (t : Listing) → units_of t key.now ≡ capacity → OnOk result (out.new ≡ out.old ++
        row_of storage_columns (storage_line t state.now (key.now, storage))) }
{
    let sum = storage.level().sum_up_to(state.clock_now());
    let time = state.clock().ticks().saturating_sub(state.since().ticks());
    let content = storage.level().content();
    let watched = Watched::Entity(EntityKind::Storage, key.clone()?);
    let retry = state.retry().count(&watched) as u64;
    let delayed = delays.len(key) as u64;
    let cells = [
        key_cell(key),
        Cell::Number(capacity),
        Cell::Number(capacity.saturating_sub(content)),
        Cell::Number(storage.least()),
        Cell::Number(storage.greatest()),
        Cell::Number(storage.entries()),
        Cell::Number(1),
        average_cell(sum, u128::from(time)),
        average_cell(sum, u128::from(capacity) * u128::from(time)),
        Cell::Number(retry),
        Cell::Number(delayed),
    ];
    put_row(out, &STORAGE_COLUMNS, &cells)
}
