ghost use Rattle.gw_edit.specs.Applied.{spelled_by};
ghost use Rattle.gw_edit.specs.Faults.{Gives};

use crate::fault::{EditFault, of_line};
use gw_lines::read_edit;
use gw_meaning::Statement;
use std::alloc::Global;

/// The statement that an edit's text spells, or E2. E7 may come in place of both.
pub fn spelled_by(alloc: Global, text: &[u8]) -> Result<Statement, EditFault>
    ensures { Gives result (spelled_by text.now) }
{
    match read_edit(alloc, text) {
        Ok(statement) => Ok(statement),
        Err(fault) => Err(of_line(fault)),
    }
}
