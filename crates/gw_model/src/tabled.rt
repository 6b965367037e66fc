ghost use Rattle.std.specs.Prelude.{◌≡◌, ◌≤◌, length, None, IfOk, OnOk, IfErr};
ghost use Rattle.gw_model.specs.Faults.{IsFault, label_fault_of};
ghost use Rattle.gw_model.specs.Tables.{AreTablesOf};

use crate::fault::ModelFault;
use crate::tables::Tables;
use gw_meaning::Numbered;
use std::alloc::Global;

/// The statements of a version with the tables that they are looked up in. Only edits of the statements make others:
/// versions that differ in replications, horizon or step limit share them.
#[derive(Drop)]
pub struct Tabled {
    /// The statements with their numbers, in order.
    pub lines: Vec<Numbered>,
    /// What their answers are looked up in.
    pub tables: Tables,
}

impl Tabled {
    /// These lines with their tables. Their labels and the names of definitions may have no fault.
    pub fn new(alloc: Global, lines: Vec<Numbered>) -> Result<Tabled, ModelFault>
        requires { length lines.items ≤ 2000 }
        ensures lines { IfOk result (λ tabled. tabled.lines ≡ lines) }
        ensures tables { IfOk result (λ tabled. AreTablesOf lines.items tabled.tables) }
        ensures sound { OnOk result (label_fault_of lines.items ≡ None) }
        ensures err { IfErr result (IsFault (label_fault_of lines.items)) }
    {
        let tables = Tables::new(alloc, lines.as_slice())?;
        Ok(Tabled { lines, tables })
    }
}
