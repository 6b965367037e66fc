ghost use Rattle.std.specs.Prelude.{◌≡◌, ◌++◌, OnOk, IfOk, map};
ghost use Rattle.gw_report.specs.Layout.{rows_of, heading_of};
ghost use Rattle.gw_report.specs.Chains.{by_time, future_columns, future_line, future_text};

use crate::line::put_line;
use crate::section::put_section;
use crate::sheet::Sheet;
use gw_chains::FutureChain;
use gw_meaning::Event;
use gw_model::Version;
use gw_state::State;
use std::alloc::{AllocError, Global};

/// Appends the future chain by time, and at equal times in the order of coming.
pub(crate) fn put_future(
    out: &mut Vec<u8>,
    version: &Version,
    state: &State,
) -> Result<(), AllocError>
    ensures { OnOk result (out.new.items ≡ out.old.items ++ future_text version.now state.now) }
{
    let lines = future_lines(*out.allocator(), version, state.future())?;
    put_section(out, future_heading(), lines.as_slice())
}

// The heading of the section.
#[tactic(auto, unfolding(crate::specs::Layout::heading_of, crate::specs::Layout::row_of))]
fn future_heading() -> &'static [u8]
    ensures { result.now ≡ heading_of future_columns }
{
    b"  FEC XN         PRI        BDT CURRENT    NEXT\n"
}

// The lines of the future chain.
fn future_lines(alloc: Global, version: &Version, future: &FutureChain) -> Result<Sheet, AllocError>
    ensures { IfOk result (λ lines. lines ≡
        rows_of future_columns (map (future_line version.now) (by_time future.now.items))) }
{
    let events = by_time(future)?;
    let mut lines = Sheet::new(alloc);
    for event in &events {
        put_line(&mut lines, version, event.time, &event.transaction)?;
    }
    Ok(lines)
}

// The events by time, and at equal times in the order of coming.
fn by_time(future: &FutureChain) -> Result<Vec<Event>, AllocError>
    ensures { IfOk result (λ events. events.items ≡ by_time future.now.items) }
{
    let mut events = future.events()?;
    events.sort_by_key(|event| event.time.ticks())?;
    Ok(events)
}
