ghost use Rattle.std.specs.Prelude.{◌≡◌, ◌↔◌, IsTrue, codes, IfOk, OnOk, IfErr};
ghost use Rattle.gw_io.specs.Model.{IsModelPart, TakesModel};
ghost use Rattle.gw_io.specs.Reading.{Breaks};

use crate::budget::{Budget, ReadFault};
use crate::line::{Line, read_line, without_cr};
use crate::room::{append, append_line};
use crate::source::Source;
use std::alloc::Global;

/// Reads the text of a model: what stands before the first line that is exactly `end`, or all of the input
/// where it has no such line.
///
/// That line is read too, and what stands after it is left unread. Its carriage return, if one stands right
/// before the line feed, is no part of it. A last line without a line feed may be `end` as well.
///
/// # Errors
///
/// The bytes that were read are lost. [`ReadFault::Read`]: the source failed; [`ReadFault::Limit`]: no call
/// was left; [`ReadFault::Memory`]: there was no room for a byte or a line.
pub fn split_model<S: Source>(
    alloc: Global,
    source: &mut S,
    budget: &mut Budget,
) -> Result<Vec<u8>, ReadFault>
    ensures model { IfOk result (λ model. TakesModel S.took S.ended source.old source.new budget.old budget.new
        model.items) }
    ensures uncounted { OnOk result (S.failures source.new ≡ S.failures source.old) }
    ensures fault { IfErr result (Breaks S.took S.failures IsModelPart source.old source.new budget.old budget.new) }
{
    let mut model = Vec::new(alloc);
    loop {
        match read_line(alloc, source, budget)? {
            Line::Whole(line) => {
                if is_end(without_cr(&line)) {
                    return Ok(model);
                }
                append_line(&mut model, &line)?;
            }
            Line::Last(line) => {
                if is_end(&line) {
                    return Ok(model);
                }
                append(&mut model, &line)?;
                return Ok(model);
            }
            Line::End => return Ok(model),
        }
    }
}

// Whether the bytes are `end`.
fn is_end(line: &[u8]) -> bool
    ensures { IsTrue result ↔ (line.now ≡ codes "end") }
{
    line == b"end".as_slice()
}
