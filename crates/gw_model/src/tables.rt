ghost use Rattle.std.specs.Prelude.{◌≡◌, ◌≤◌, length, None, IfOk, OnOk, IfErr};
ghost use Rattle.gw_model.specs.Faults.{IsFault, label_fault_of};
ghost use Rattle.gw_model.specs.Tables.{AreTablesOf};

use crate::by_name::ByName;
use crate::fault::ModelFault;
use crate::lists::{any_is_equ, commands_of, count_blocks, count_starts, generates_of};
use crate::names::{Names, sound_names};
use crate::places::{Place, places_of};
use gw_meaning::{Command, Definition, Numbered, StatementId};
use std::alloc::Global;

/// What a version looks its answers up in.
#[derive(Drop)]
pub struct Tables {
    /// For each id the place of its block.
    pub places: Vec<Place>,
    /// How many blocks there are.
    pub blocks: u64,
    /// The commands, in order.
    pub commands: Vec<Command>,
    /// How many STARTs there are.
    pub starts: u64,
    /// The ids of the GENERATEs, in order.
    pub generates: Vec<StatementId>,
    /// The id of the block with each label.
    pub labels: ByName<StatementId>,
    /// Whether a statement is an EQU: where none is, no name stands for a number.
    pub has_equ: bool,
    /// What each name is defined as.
    pub definitions: ByName<Definition>,
}

impl Tables {
    /// The tables of these lines. Their labels and the names of definitions may have no fault.
    pub fn new(alloc: Global, lines: &[Numbered]) -> Result<Tables, ModelFault>
        requires { length lines.now ≤ 2000 }
        ensures tables { IfOk result (λ tables. AreTablesOf lines.now tables) }
        ensures sound { OnOk result (label_fault_of lines.now ≡ None) }
        ensures err { IfErr result (IsFault (label_fault_of lines.now)) }
    {
        let Names {
            labels,
            definitions,
        } = sound_names(alloc, lines)?;
        let places = places_of(alloc, lines)?;
        let blocks = count_blocks(lines);
        let commands = commands_of(alloc, lines)?;
        let starts = count_starts(commands.as_slice());
        let generates = generates_of(alloc, lines)?;
        Ok(Tables {
            places,
            blocks,
            commands,
            starts,
            generates,
            has_equ: any_is_equ(lines),
            labels: ByName::from_map(alloc, labels)?,
            definitions: ByName::from_map(alloc, definitions)?,
        })
    }
}
