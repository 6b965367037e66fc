ghost use Rattle.std.specs.Prelude.{◌≡◌, ◌++◌, OnOk};
ghost use Rattle.gw_report.specs.Layout.{heading_of};
ghost use Rattle.gw_report.specs.Report.{head_columns, head_text};

use crate::column::{Cell, Column, Side, put_row};
use crate::section::put_table;
use crate::sheet::Sheet;
use gw_model::Version;
use gw_state::State;
use std::alloc::AllocError;

const HEAD_COLUMNS: [Column; 5] = [
    Column(10, Side::Right),
    Column(10, Side::Right),
    Column(10, Side::Right),
    Column(10, Side::Right),
    Column(10, Side::Right),
];

/// Appends the head: from when to when, and how much there is.
pub(crate) fn put_head(
    out: &mut Vec<u8>,
    version: &Version,
    state: &State,
) -> Result<(), AllocError>
    ensures { OnOk result (out.new.items ≡ out.old.items ++ head_text version.now state.now) }
{
    let cells = [
        Cell::Number(state.since().ticks()),
        Cell::Number(state.clock().ticks()),
        Cell::Number(version.blocks()),
        Cell::Number(state.entities().facilities().len() as u64),
        Cell::Number(state.entities().storages().len() as u64),
    ];
    let mut line = Sheet::new(*out.allocator());
    put_row(&mut line, &HEAD_COLUMNS, &cells)?;
    put_table(out, head_heading(), line.as_slice())
}

// The heading of the section.
#[tactic(auto, unfolding(crate::specs::Layout::heading_of, crate::specs::Layout::row_of))]
fn head_heading() -> &'static [u8]
    ensures { result.now ≡ heading_of head_columns }
{
    b"START TIME   END TIME     BLOCKS FACILITIES   STORAGES\n"
}
