ghost use Rattle.std.specs.Prelude.{◌≡◌, ◌≤◌, ◌-◌, length, filter, take, IfSome, None, option_copied};
ghost use Rattle.gw_meaning.specs.Listing.{defines, is_command, nth};
ghost use Rattle.gw_touch.specs.Touching.{last_block, is_capacity, storage_in};

use gw_meaning::{Definition, Numbered, StatementId};
use gw_names::Name;

/// The line at a place, from 1.
pub fn line_at(lines: &[Numbered], place: u64) -> Option<&Numbered>
    ensures { option_copied result ≡ nth lines.now place }
{
    if place == 0 {
        return None;
    }
    lines.get(place as usize - 1)
}

/// The lines in front of a place.
pub fn lines_before(lines: &[Numbered], place: u64) -> &[Numbered]
    ensures { result.now ≡ take (place - 1) lines.now }
{
    let end = lines.len().min(place.saturating_sub(1) as usize);
    &lines[..end]
}

/// The id of the last block.
pub fn last_block(lines: &[Numbered]) -> Option<StatementId>
    ensures { result ≡ last_block None lines.now }
{
    let mut last = None;
    for line in lines {
        if line.is_block() {
            last = Some(line.number);
        }
    }
    last
}

/// How many commands there are.
pub(crate) fn count_commands(lines: &[Numbered]) -> u64
    ensures { result ≡ length (filter is_command lines.now) }
{
    let mut count = 0;
    for line in lines {
        if line.is_command() {
            count += 1;
        }
    }
    count
}

/// The place of the statement that defines the storage of this name, from 1.
pub fn storage_place(lines: &[Numbered], name: &Name) -> Option<u64>
    ensures place { result ≡ storage_in name.now 1 lines.now }
    ensures there { IfSome result (λ place. (1 ≤ place) × (place ≤ length lines.now)) }
{
    let mut place = 0;
    for line in lines {
        place += 1;
        if defines_storage(line, name) {
            return Some(place);
        }
    }
    None
}

fn defines_storage(line: &Numbered, name: &Name) -> bool
    ensures { result ≡ is_capacity (defines name.now line.now) }
{
    match (&line.statement.label, line.definition()) {
        (Some(label), Some(Definition::Storage { .. })) => label == name,
        _ => false,
    }
}
