ghost use Rattle.std.specs.Prelude.{◌≡◌, ◌++◌, OnOk};
ghost use Rattle.gw_report.specs.Layout.{rows_of, heading_of};
ghost use Rattle.gw_report.specs.Blocks.{label_text, block_columns, block_lines, blocks_text};

use crate::column::Side;
use crate::position::position_of;
use crate::section::put_table;
use crate::sheet::Sheet;
use gw_meaning::{Body, Numbered, Watched};
use gw_model::Version;
use gw_names::Name;
use gw_state::State;
use std::alloc::AllocError;

/// Appends the blocks, in order.
pub(crate) fn put_blocks(
    out: &mut Vec<u8>,
    version: &Version,
    state: &State,
) -> Result<(), AllocError>
    ensures { OnOk result (out.new.items ≡ out.old.items ++ blocks_text version.now state.now) }
{
    let mut lines = Sheet::new(*out.allocator());
    for line in version.lines() {
        put_block(&mut lines, version, state, line)?;
    }
    put_table(out, block_heading(), lines.as_slice())
}

// The heading of the section.
#[tactic(auto, unfolding(crate::specs::Layout::heading_of, crate::specs::Layout::row_of))]
fn block_heading() -> &'static [u8]
    ensures { result.now ≡ heading_of block_columns }
{
    b"LABEL        LOC BLOCK TYPE ENTRY COUNT CURRENT COUNT  RETRY\n"
}

// The line of a block.
fn put_block(
    out: &mut Sheet,
    version: &Version,
    state: &State,
    line: &Numbered,
) -> Result<(), AllocError>
    ensures { OnOk result (out.new ≡ out.old ++
        rows_of block_columns (block_lines version.now state.now line.now)) }
{
    let Body::Block(block) = &line.statement.body else {
        return Ok(());
    };
    let count = state.count(line.number);
    out.make_room()?;
    out.put_text(0, 10, Side::Left, label_text(&line.statement.label))?;
    out.put_number(1, 5, position_of(version, Some(line.number)))?;
    out.put_text(1, 10, Side::Left, block.verb.word())?;
    out.put_number(1, 11, count.entries)?;
    out.put_number(1, 13, count.content)?;
    let retry = state.retry().count(&Watched::Counts(line.number));
    out.put_number(1, 6, retry as u64)?;
    out.end_row()
}

// A label, or nothing.
fn label_text(label: &Option<Name>) -> &[u8]
    ensures { result.now ≡ label_text label.now }
{
    match label {
        Some(name) => name.as_bytes(),
        None => b"",
    }
}
