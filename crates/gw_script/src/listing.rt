// The statements of a version.
ghost use Rattle.std.specs.Prelude.{◌≡◌, ◌++◌, IfOk, OnOk};
ghost use Rattle.gw_script.specs.Printing.{list_answer, lines_from, line_of};

use crate::answers::heading;
use gw_meaning::{Numbered, Statement};
use gw_nums::put_decimal;
use std::alloc::{AllocError, Global};

/// How many statements there are, and each of them after its place.
pub fn list(alloc: Global, lines: &[Numbered]) -> Result<Vec<u8>, AllocError>
    ensures { IfOk result (λ v. v.items ≡ list_answer lines.now) }
{
    let mut text = heading(alloc, b"list ", lines.len())?;
    put_lines(&mut text, lines)?;
    Ok(text)
}

fn put_lines(text: &mut Vec<u8>, lines: &[Numbered]) -> Result<(), AllocError>
    ensures { OnOk result (text.new.items ≡ text.old.items ++ lines_from 1 lines.now) }
{
    let mut place = 0u64;
    for line in lines {
        place += 1;
        put_line(text, place, &line.statement)?;
    }
    Ok(())
}

fn put_line(text: &mut Vec<u8>, place: u64, statement: &Statement) -> Result<(), AllocError>
    ensures { OnOk result (text.new.items ≡ text.old.items ++ line_of place statement.now) }
{
    put_decimal(text, place)?;
    text.extend_from_slice(b" ")?;
    statement.put_text(text)?;
    text.extend_from_slice(b"\n")
}
