ghost use Rattle.std.specs.Prelude.{◌≡◌, ◌++◌, OnOk, IfOk, map};
ghost use Rattle.gw_chains.specs.Chains.{delays_of};
ghost use Rattle.gw_report.specs.Layout.{row_of, rows_of, heading_of};
ghost use Rattle.gw_report.specs.Facilities.{facility_columns, facility_line, facilities_text};

use crate::column::{Cell, Column, Side, put_row};
use crate::entity::{average_cell, key_cell};
use crate::section::put_section;
use crate::sheet::Sheet;
use gw_chains::DelayChains;
use gw_entities::Facility;
use gw_meaning::{EntityKind, Watched};
use gw_names::Key;
use gw_state::State;
use std::alloc::{AllocError, Global};

const FACILITY_COLUMNS: [Column; 10] = [
    Column(10, Side::Left),
    Column(8, Side::Right),
    Column(8, Side::Right),
    Column(11, Side::Right),
    Column(6, Side::Right),
    Column(7, Side::Right),
    Column(4, Side::Right),
    Column(5, Side::Right),
    Column(5, Side::Right),
    Column(5, Side::Right),
];

/// Appends the facilities, in order of first touch. The delay chains are those of the state.
pub(crate) fn put_facilities(
    out: &mut Vec<u8>,
    state: &State,
    delays: &DelayChains,
) -> Result<(), AllocError>
    requires { delays_of delays.now ≡ state.now.delays }
    ensures { OnOk result (out.new.items ≡ out.old.items ++ facilities_text state.now) }
{
    let lines = facility_lines(*out.allocator(), state, delays)?;
    put_section(out, facility_heading(), lines.as_slice())
}

// The heading of the section.
#[tactic(auto, unfolding(crate::specs::Layout::heading_of, crate::specs::Layout::row_of))]
fn facility_heading() -> &'static [u8]
    ensures { result.now ≡ heading_of facility_columns }
{
    b"FACILITY    ENTRIES    UTIL.   AVE. TIME AVAIL.   OWNER PEND INTER RETRY DELAY\n"
}

// The lines of the facilities.
fn facility_lines(alloc: Global, state: &State, delays: &DelayChains) -> Result<Sheet, AllocError>
    requires { delays_of delays.now ≡ state.now.delays }
    ensures { IfOk result (λ lines. lines ≡
        rows_of facility_columns (map (facility_line state.now) state.now.entities.facilities)) }
{
    let facilities = state.entities().facilities();
    let mut lines = Sheet::new(alloc);
    for index in 0..facilities.len() {
        if let Some((key, facility)) = facilities.at(index) {
            put_facility(&mut lines, state, delays, key, facility)?;
        }
    }
    Ok(lines)
}

// The line of a facility.
#[tactic(auto, unfolding(crate::specs::Facilities::facility_line, crate::specs::Layout::row_of))]
fn put_facility(
    out: &mut Sheet,
    state: &State,
    delays: &DelayChains,
    key: &Key,
    facility: Facility,
) -> Result<(), AllocError>
    requires { delays_of delays.now ≡ state.now.delays }
    ensures { OnOk result (out.new ≡ out.old ++
        row_of facility_columns (facility_line state.now (key.now, facility))) }
{
    let sum = facility.level().sum_up_to(state.clock_now());
    let time = state.clock().ticks().saturating_sub(state.since().ticks());
    let captures = facility.captures();
    let watched = Watched::Entity(EntityKind::Facility, key.clone()?);
    let retry = state.retry().count(&watched) as u64;
    let delayed = delays.len(key) as u64;
    let cells = [
        key_cell(key),
        Cell::Number(captures),
        average_cell(sum, u128::from(time)),
        average_cell(sum, u128::from(captures)),
        Cell::Number(1),
        Cell::Number(facility.owner().unwrap_or(0)),
        Cell::Number(0),
        Cell::Number(0),
        Cell::Number(retry),
        Cell::Number(delayed),
    ];
    put_row(out, &FACILITY_COLUMNS, &cells)
}
