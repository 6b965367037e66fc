ghost use Rattle.std.specs.Prelude.{◌≡◌, ◌++◌, OnOk, IfOk, map, option_to_list, option_copied};
ghost use Rattle.gw_report.specs.Layout.{row_of, rows_of, heading_of};
ghost use Rattle.gw_report.specs.Chains.{current_columns, current_line, current_text};

use crate::line::put_line;
use crate::section::put_section;
use crate::sheet::Sheet;
use gw_meaning::Transaction;
use gw_model::Version;
use gw_state::State;
use std::alloc::{AllocError, Global};

/// Appends the current chain after the active transaction.
pub(crate) fn put_current(
    out: &mut Vec<u8>,
    version: &Version,
    state: &State,
) -> Result<(), AllocError>
    ensures { OnOk result (out.new.items ≡ out.old.items ++ current_text version.now state.now) }
{
    let lines = current_lines(*out.allocator(), version, state)?;
    put_section(out, current_heading(), lines.as_slice())
}

// The heading of the section.
#[tactic(auto, unfolding(crate::specs::Layout::heading_of, crate::specs::Layout::row_of))]
fn current_heading() -> &'static [u8]
    ensures { result.now ≡ heading_of current_columns }
{
    b"  CEC XN         PRI         M1 CURRENT    NEXT\n"
}

// The lines of the active transaction and of the current chain.
fn current_lines(alloc: Global, version: &Version, state: &State) -> Result<Sheet, AllocError>
    ensures { IfOk result (λ lines. lines ≡
        rows_of current_columns
        (map (current_line version.now) (option_to_list state.now.active ++ state.now.current))) }
{
    let mut lines = Sheet::new(alloc);
    put_active(&mut lines, version, state.active())?;
    let chain = state.current();
    for index in 0..chain.len() {
        if let Some(transaction) = chain.get(index) {
            put_waiting(&mut lines, version, transaction)?;
        }
    }
    Ok(lines)
}

// The line of the active transaction, if there is one.
fn put_active(
    out: &mut Sheet,
    version: &Version,
    active: Option<&Transaction>,
) -> Result<(), AllocError>
    ensures { OnOk result (out.new ≡ out.old ++
        rows_of current_columns (map (current_line version.now) (option_to_list (option_copied active.entry)))) }
{
    match active {
        Some(transaction) => put_waiting(out, version, transaction),
        None => Ok(()),
    }
}

// The line of a transaction, with its mark time.
fn put_waiting(
    out: &mut Sheet,
    version: &Version,
    transaction: &Transaction,
) -> Result<(), AllocError>
    ensures { OnOk result (out.new ≡ out.old ++
        row_of current_columns (current_line version.now transaction.now)) }
{
    put_line(out, version, transaction.mark, transaction)
}
