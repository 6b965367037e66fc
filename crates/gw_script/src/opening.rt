// From a model's bytes and the options to a desk.
ghost use Rattle.std.specs.Prelude.{◌≡◌, ◌≤◌, IfOk, IfErr};
ghost use Rattle.gw_desk.specs.Book.{IsBook};
ghost use Rattle.gw_script.specs.Opening.{Opens, OpensVersion, Refuses, fault_of_line};

use crate::fault::Fault;
use gw_desk::Desk;
use gw_lines::{FaultyLine, LineFault, read_model};
use gw_meaning::Replication;
use gw_model::{ModelFault, Version};
use std::alloc::Global;

/// What a model is opened with.
#[derive(Clone, Copy)]
pub struct Options {
    /// The seed of replication 1, from 1 to 2,147,483,646.
    pub seed: u64,
    /// The horizon in clock ticks, from 1 to 1,000,000,000,000.
    pub horizon: u64,
    /// How many steps lie between two kept states, from 1 to 1,000,000.
    pub every: u64,
    /// The step limit of a run, from 1 to 1,000,000.
    pub limit: u64,
}

impl Options {
    /// The options of a program that is told none.
    pub const USUAL: Options = Options {
        seed: 1,
        horizon: 1_000_000_000,
        every: 1000,
        limit: 1_000_000,
    };
}

/// Opens a model with replication 1: F1 for its first faulty line, F2 for its first model fault.
pub fn open(alloc: Global, model: &[u8], options: Options) -> Result<Desk, Fault>
    requires { 1 ≤ options.every }
    ensures opens { IfOk result (Opens model.now options) }
    ensures desk { IfOk result IsBook }
    ensures refuses { IfErr result (Refuses model.now options) }
{
    let version = open_version(alloc, model, options)?;
    match Desk::new(alloc, version, options.every) {
        Ok(desk) => Ok(desk),
        Err(_) => Err(Fault::Memory),
    }
}

/// The version of a model with replication 1, which [`open`] opens; `every` stays unread. Its faults are those of
/// `open`.
pub fn open_version(alloc: Global, model: &[u8], options: Options) -> Result<Version, Fault>
    ensures opens { IfOk result (OpensVersion model.now options) }
    ensures refuses { IfErr result (Refuses model.now options) }
{
    let statements = match read_model(alloc, model) {
        Ok(statements) => statements,
        Err(faulty) => return Err(line_fault(faulty)),
    };
    let mut replications = Vec::new(alloc);
    if let Err(_) = replications.push(Replication {
        number: 1,
        seed: options.seed,
    }) {
        return Err(Fault::Memory);
    }
    match Version::new(
        alloc,
        statements,
        options.horizon,
        replications,
        options.limit,
    ) {
        Ok(version) => Ok(version),
        Err(ModelFault::Memory) => Err(Fault::Memory),
        Err(fault) => Err(Fault::Model(fault)),
    }
}

fn line_fault(faulty: FaultyLine) -> Fault
    ensures { result ≡ fault_of_line faulty }
{
    match faulty.fault {
        LineFault::Memory => Fault::Memory,
        _ => Fault::Line(faulty),
    }
}
