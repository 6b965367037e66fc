ghost use Rattle.std.specs.Prelude.{◌≡◌, ◌++◌, OnOk};
ghost use Rattle.gw_report.specs.Layout.{row_of};
ghost use Rattle.gw_report.specs.Chains.{current_columns, future_columns, line_of};

use crate::position::{next_number, position_of};
use crate::sheet::Sheet;
use gw_meaning::Transaction;
use gw_model::Version;
use gw_nums::Time;
use std::alloc::AllocError;

/// Appends a transaction's line, as it stands in either chain; `time` is its mark time, or the time at which it moves
/// on.
#[tactic(auto, unfolding(crate::specs::Chains::line_of, crate::specs::Layout::row_of))]
pub fn put_line(
    out: &mut Sheet,
    version: &Version,
    time: Time,
    transaction: &Transaction,
) -> Result<(), AllocError>
    ensures current { OnOk result (out.new ≡ out.old ++
        row_of current_columns (line_of version.now time transaction.now)) }
    ensures future { OnOk result (out.new ≡ out.old ++
        row_of future_columns (line_of version.now time transaction.now)) }
{
    let current = position_of(version, Some(transaction.current));
    let next = position_of(version, next_number(version, transaction));
    out.make_room()?;
    out.put_number(0, 8, transaction.number)?;
    out.put_signed(1, 11, transaction.priority)?;
    out.put_number(1, 10, time.ticks())?;
    out.put_number(1, 7, current)?;
    out.put_number(1, 7, next)?;
    out.end_row()
}
