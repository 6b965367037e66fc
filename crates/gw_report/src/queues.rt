ghost use Rattle.std.specs.Prelude.{◌≡◌, ◌++◌, OnOk, IfOk, map};
ghost use Rattle.gw_report.specs.Layout.{row_of, rows_of, heading_of};
ghost use Rattle.gw_report.specs.Queues.{queue_columns, queue_line, queues_text};

use crate::column::{Cell, Column, Side, put_row};
use crate::entity::{average_cell, key_cell};
use crate::section::put_section;
use crate::sheet::Sheet;
use gw_entities::Queue;
use gw_meaning::{EntityKind, Watched};
use gw_names::Key;
use gw_state::State;
use std::alloc::{AllocError, Global};

const QUEUE_COLUMNS: [Column; 9] = [
    Column(10, Side::Left),
    Column(8, Side::Right),
    Column(8, Side::Right),
    Column(8, Side::Right),
    Column(8, Side::Right),
    Column(11, Side::Right),
    Column(11, Side::Right),
    Column(11, Side::Right),
    Column(5, Side::Right),
];

/// Appends the queues, in order of first touch.
pub(crate) fn put_queues(out: &mut Vec<u8>, state: &State) -> Result<(), AllocError>
    ensures { OnOk result (out.new.items ≡ out.old.items ++ queues_text state.now) }
{
    let lines = queue_lines(*out.allocator(), state)?;
    put_section(out, queue_heading(), lines.as_slice())
}

// The heading of the section.
#[tactic(auto, unfolding(crate::specs::Layout::heading_of, crate::specs::Layout::row_of))]
fn queue_heading() -> &'static [u8]
    ensures { result.now ≡ heading_of queue_columns }
{
    b"QUEUE           MAX    CONT.    ENTRY ENTRY(0)   AVE.CONT.    AVE.TIME    AVE.(-0) RETRY\n"
}

// The lines of the queues.
fn queue_lines(alloc: Global, state: &State) -> Result<Sheet, AllocError>
    ensures { IfOk result (λ lines. lines ≡
        rows_of queue_columns (map (queue_line state.now) state.now.entities.queues)) }
{
    let queues = state.entities().queues();
    let mut lines = Sheet::new(alloc);
    for index in 0..queues.len() {
        if let Some((key, queue)) = queues.at(index) {
            put_queue(&mut lines, state, key, queue)?;
        }
    }
    Ok(lines)
}

// The line of a queue.
#[tactic(auto, unfolding(crate::specs::Queues::queue_line, crate::specs::Layout::row_of))]
fn put_queue(out: &mut Sheet, state: &State, key: &Key, queue: Queue) -> Result<(), AllocError>
    ensures { OnOk result (out.new ≡ out.old ++
        row_of queue_columns (queue_line state.now (key.now, queue))) }
{
    let sum = queue.level().sum_up_to(state.clock_now());
    let time = state.clock().ticks().saturating_sub(state.since().ticks());
    let entries = queue.entries();
    let zero_entries = queue.zero_entries();
    let watched = Watched::Entity(EntityKind::Queue, key.clone()?);
    let retry = state.retry().count(&watched) as u64;
    let cells = [
        key_cell(key),
        Cell::Number(queue.greatest()),
        Cell::Number(queue.level().content()),
        Cell::Number(entries),
        Cell::Number(zero_entries),
        average_cell(sum, u128::from(time)),
        average_cell(sum, u128::from(entries)),
        average_cell(sum, u128::from(entries.saturating_sub(zero_entries))),
        Cell::Number(retry),
    ];
    put_row(out, &QUEUE_COLUMNS, &cells)
}
