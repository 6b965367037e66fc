ghost use Rattle.std.specs.Prelude.{◌≡◌, IfOk, length, filter, option_copied};
ghost use Rattle.std.specs.List.{filter_map, list_any};
ghost use Rattle.gw_meaning.specs.Listing.{command_of, is_block, is_start, generates_in, nth};
ghost use Rattle.gw_model.specs.Tables.{is_equ};

use gw_meaning::{Body, Command, Definition, Numbered, StatementId};
use std::alloc::{AllocError, Global};

/// The number of blocks among the lines.
pub fn count_blocks(lines: &[Numbered]) -> u64
    ensures { result ≡ length (filter is_block lines.now) }
{
    let mut count = 0;
    for line in lines {
        if line.is_block() {
            count += 1;
        }
    }
    count
}

/// The commands, in order.
pub fn commands_of(alloc: Global, lines: &[Numbered]) -> Result<Vec<Command>, AllocError>
    ensures { IfOk result (λ commands. commands.items ≡ filter_map command_of lines.now) }
{
    let mut commands = Vec::new(alloc);
    for line in lines {
        if let Some(command) = line.command() {
            commands.push(command.copy(alloc)?)?;
        }
    }
    Ok(commands)
}

/// The number of STARTs.
pub(crate) fn count_starts(commands: &[Command]) -> u64
    ensures { result ≡ length (filter is_start commands.now) }
{
    commands.iter().filter(|command| is_start(command)).count() as u64
}

/// The ids of the GENERATEs, in order.
pub(crate) fn generates_of(
    alloc: Global,
    lines: &[Numbered],
) -> Result<Vec<StatementId>, AllocError>
    ensures { IfOk result (λ numbers. numbers.items ≡ generates_in lines.now) }
{
    let mut numbers = Vec::new(alloc);
    for line in lines {
        if line.is_generate() {
            numbers.push(line.number)?;
        }
    }
    Ok(numbers)
}

/// Whether one of the statements is an EQU.
pub(crate) fn any_is_equ(lines: &[Numbered]) -> bool
    ensures { result ≡ list_any is_equ lines.now }
{
    lines.iter().any(|line| is_equ(line))
}

/// The i-th item, from 1.
pub fn nth<T>(items: &[T], i: u64) -> Option<&T>
    ensures { option_copied result ≡ nth items.now i }
{
    if i == 0 {
        return None;
    }
    items.get(i as usize - 1)
}

fn is_start(command: &Command) -> bool
    ensures { result ≡ is_start command.now }
{
    match command {
        Command::Start { .. } => true,
        _ => false,
    }
}

fn is_equ(line: &Numbered) -> bool
    ensures { result ≡ is_equ line.now }
{
    match &line.statement.body {
        Body::Definition(Definition::Equ { .. }) => true,
        _ => false,
    }
}
