ghost use Rattle.std.specs.Prelude.{◌≡◌, IfOk, OnOk, IfErr};
ghost use Rattle.gw_io.specs.Reading.{Breaks, AnyBytes};
ghost use Rattle.gw_io.specs.Whole.{TakesAll};

use crate::budget::{Budget, ReadFault, read_byte};
use crate::room::push;
use crate::source::Source;
use std::alloc::Global;

/// Reads all the bytes that the source has left, to the end of its input.
///
/// No line is looked for: a line `end` is bytes as any other. Each byte costs one call of the budget, and so
/// does the end.
///
/// # Errors
///
/// The bytes that were read are lost. [`ReadFault::Read`]: the source failed; [`ReadFault::Limit`]: no call
/// was left; [`ReadFault::Memory`]: there was no room for a byte.
pub fn read_all<S: Source>(
    alloc: Global,
    source: &mut S,
    budget: &mut Budget,
) -> Result<Vec<u8>, ReadFault>
    ensures all { IfOk result
        (λ bytes. TakesAll S.took S.ended source.old source.new budget.old budget.new bytes.items) }
    ensures uncounted { OnOk result (S.failures source.new ≡ S.failures source.old) }
    ensures fault { IfErr result (Breaks S.took S.failures AnyBytes source.old source.new budget.old budget.new) }
{
    let mut bytes = Vec::new(alloc);
    while let Some(byte) = read_byte(source, budget)? {
        push(&mut bytes, byte)?;
    }
    Ok(bytes)
}
