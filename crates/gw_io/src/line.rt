ghost use Rattle.std.specs.Prelude.{◌≡◌, ◌+◌, IfOk, OnOk, IfErr};
ghost use Rattle.gw_io.specs.Line.{IsUnended, IsLineAt, bytes_of, calls_of, without_cr_of};
ghost use Rattle.gw_io.specs.Reading.{Breaks};

use crate::budget::{Budget, ReadFault, read_byte};
use crate::room::push;
use crate::source::Source;
use std::alloc::Global;

/// A line of the input, without its line feed.
#[derive(Drop)]
pub enum Line {
    /// A line feed stood after these bytes.
    Whole(Vec<u8>),
    /// The input ended after these bytes, of which there is at least one.
    Last(Vec<u8>),
    /// The input ended with nothing more.
    End,
}

/// Reads a line: what stands before the next line feed, or the rest of the input where it has none.
///
/// A carriage return is a byte as any other. Each byte costs one call of the budget, and so does the end.
///
/// # Errors
///
/// The bytes that were read are lost. [`ReadFault::Read`]: the source failed; [`ReadFault::Limit`]: no call
/// was left; [`ReadFault::Memory`]: there was no room for a byte.
pub fn read_line<S: Source>(
    alloc: Global,
    source: &mut S,
    budget: &mut Budget,
) -> Result<Line, ReadFault>
    ensures line { IfOk result (IsLineAt (S.ended source.new)) }
    ensures taken { IfOk result (λ line. S.took source.old (bytes_of line) source.new) }
    ensures spent { IfOk result (λ line. budget.old ≡ budget.new + calls_of line) }
    ensures uncounted { OnOk result (S.failures source.new ≡ S.failures source.old) }
    ensures fault { IfErr result (Breaks S.took S.failures IsUnended source.old source.new budget.old budget.new) }
{
    let mut bytes = Vec::new(alloc);
    while let Some(byte) = read_byte(source, budget)? {
        if byte == b'\n' {
            return Ok(Line::Whole(bytes));
        }
        push(&mut bytes, byte)?;
    }
    if bytes.is_empty() {
        Ok(Line::End)
    } else {
        Ok(Line::Last(bytes))
    }
}

/// The line without one carriage return at its very end.
pub fn without_cr(line: &[u8]) -> &[u8]
    ensures { result.now ≡ without_cr_of line.now }
{
    match line {
        [front @ .., b'\r'] => front,
        _ => line,
    }
}
