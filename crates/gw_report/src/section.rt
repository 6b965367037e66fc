ghost use Rattle.std.specs.Prelude.{◌≡◌, ◌++◌, OnOk};
ghost use Rattle.gw_report.specs.Cells.{under_heading, if_any};

use std::alloc::AllocError;

/// Appends a section that always appears: an empty line, the heading and the lines.
pub(crate) fn put_table(out: &mut Vec<u8>, heading: &[u8], lines: &[u8]) -> Result<(), AllocError>
    ensures { OnOk result (out.new.items ≡ out.old.items ++ under_heading heading.now lines.now) }
{
    out.push(b'\n')?;
    out.extend_from_slice(heading)?;
    out.extend_from_slice(lines)
}

/// Appends a section, where it has a line.
pub(crate) fn put_section(out: &mut Vec<u8>, heading: &[u8], lines: &[u8]) -> Result<(), AllocError>
    ensures { OnOk result (out.new.items ≡ out.old.items ++ if_any heading.now lines.now) }
{
    match lines {
        [] => Ok(()),
        _ => put_table(out, heading, lines),
    }
}
