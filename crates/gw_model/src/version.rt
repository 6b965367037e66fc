ghost use Rattle.std.specs.Prelude.{◌≡◌, ◌≤◌, IfOk, OnOk, IfErr, IfSome, IsTrue, Some, None, option_copied, length, nat_le, if◌then◌else◌};
ghost use Rattle.gw_meaning.specs.Listing.{block_at, after_at, position_at, label_at, command_at, definition_at, capacity_at, number_at, argument_at, generates_in, statement_at, starts, replication_at, seed_at};

use crate::fault::ModelFault;
use crate::lines::{number, spliced};
use crate::lists::nth;
use crate::places::{after_of, block_of, position_of};
use crate::replications::seed_of;
use crate::settings::checked_horizon;
use crate::tabled::Tabled;
use gw_expr::{Defs, Expr, Function};
use gw_meaning::{Block, Command, Definition, Numbered, Replication, Statement, StatementId};
use gw_names::Name;
use gw_nums::{Clock, Time, Val};
use std::alloc::{AllocError, Global};
use std::marker::Model;
use std::sync::Arc;

/// A version of a model: at most 2,000 statements with ids of their own, from 1, of which no two are one; a horizon; at
/// most 32 replications with their seeds; and a step limit. Each version has no model fault.
#[derive(Drop)]
pub struct Version {
    tabled: Arc<Tabled>,
    horizon: Time,
    replications: Vec<Replication>,
    limit: u64,
}

impl Model for Version {
    ghost use Rattle.gw_meaning.specs.Listing.{Listing};

    ghost Value = { Listing };

    ghost use Rattle.gw_model.specs.Tables.{IsKept};
    ghost use Rattle.gw_model.specs.Listed.{listing_of};

    ghost view = { λ v. listing_of v.tabled.value.lines.items v.horizon v.replications.items v.limit };

    ghost invariant = { λ v. IsKept (listing_of v.tabled.value.lines.items v.horizon v.replications.items v.limit)
        v.tabled.value.tables };
}

impl Version {
    ghost use Rattle.std.specs.Prelude.{◌≡◌, ◌≤◌, ◌+◌, length, IsTrue, IfOk, OnOk, IfErr, Ok, Some, None};
    ghost use Rattle.gw_meaning.specs.Numbers.{AreNumbered};
    ghost use Rattle.gw_model.specs.Faults.{fault_of, IsFault};
    ghost use Rattle.gw_model.specs.Well.{Well};
    ghost use Rattle.gw_model.specs.declared.fault.ModelFault.TheVariants.{Memory};
    ghost use Rattle.gw_model.specs.Listed.{listed, listing_of, blocks};
    ghost use Rattle.gw_model.specs.Made.{Makes};
    ghost use Rattle.gw_model.specs.Spliced.{with_splice};

    /// The version with these statements, which get the ids 1, 2, 3 and so on, and these replications in
    /// the order of adding; or the first fault, in the order M5, M6, M7, M1, M2, M3, M4. M8 may come in place of any.
    pub fn new(
        alloc: Global,
        statements: Vec<Statement>,
        horizon: u64,
        replications: Vec<Replication>,
        limit: u64,
    ) -> Result<Version, ModelFault>
        ensures value { IfOk result (λ v. v ≡ listed statements.items horizon replications.items limit) }
        ensures found { IfOk result (λ v. Well v) }
        ensures none { OnOk result (fault_of (listed statements.items horizon replications.items limit) ≡ None) }
        ensures fault { IfErr result (λ f. IsFault (fault_of (listed statements.items horizon replications.items limit))
            f) }
        ensures only { Well (listed statements.items horizon replications.items limit) →
            IfErr result (λ f. f ≡ Memory) }
    {
        let lines = number(alloc, statements)?;
        Version::from_lines(alloc, lines, horizon, replications, limit)
    }

    /// The version with one splice of its statements at a place, from 1: the statement there is deleted, or stays, and
    /// another one is inserted, or none. That keeps the id of the deleted one, and else gets the id above all that are
    /// there. The faults are those of `new`. The version itself stays as it is.
    pub fn with_splice(
        &self,
        alloc: Global,
        place: u64,
        deletes: bool,
        inserts: Option<Statement>,
    ) -> Result<Version, ModelFault>
        requires first { 1 ≤ place }
        requires last { place ≤ length self.now.lines + 1 }
        requires there { IsTrue deletes → place ≤ length self.now.lines }
        ensures value { IfOk result (λ v. v ≡ with_splice self.now place deletes inserts) }
        ensures found { IfOk result (λ v. Well v) }
        ensures none { OnOk result (fault_of (with_splice self.now place deletes inserts) ≡ None) }
        ensures fault { IfErr result (λ f. IsFault (fault_of (with_splice self.now place deletes inserts)) f) }
        ensures only { Well (with_splice self.now place deletes inserts) → IfErr result (λ f. f ≡ Memory) }
    {
        let lines = spliced(alloc, self.tabled.lines.as_slice(), place, deletes, inserts)?;
        let replications = Vec::from_slice(alloc, self.replications.as_slice())?;
        Version::from_lines(alloc, lines, self.horizon.ticks(), replications, self.limit)
    }

    /// The version with these replications in place of its own. Both share the statements, so that nothing is copied.
    /// The faults are those of `new`.
    pub fn with_replications(&self, replications: Vec<Replication>) -> Result<Version, ModelFault>
        ensures value { IfOk result (λ v. v ≡ record self.now { replications = replications.items }) }
        ensures found { IfOk result (λ v. Well v) }
        ensures none { OnOk result (fault_of (record self.now { replications = replications.items }) ≡ None) }
        ensures fault { IfErr result
            (λ f. IsFault (fault_of (record self.now { replications = replications.items })) f) }
        ensures only { Well (record self.now { replications = replications.items }) → IfErr result (λ f. f ≡ Memory) }
    {
        self.with_settings(self.horizon.ticks(), replications, self.limit)
    }

    /// The version with this horizon in place of its own. Both share the statements. The faults are those of `new`.
    pub fn with_horizon(&self, alloc: Global, horizon: u64) -> Result<Version, ModelFault>
        ensures value { IfOk result (λ v. v ≡ record self.now { horizon = horizon }) }
        ensures found { IfOk result (λ v. Well v) }
        ensures none { OnOk result (fault_of (record self.now { horizon = horizon }) ≡ None) }
        ensures fault { IfErr result (λ f. IsFault (fault_of (record self.now { horizon = horizon })) f) }
        ensures only { Well (record self.now { horizon = horizon }) → IfErr result (λ f. f ≡ Memory) }
    {
        let replications = Vec::from_slice(alloc, self.replications.as_slice())?;
        self.with_settings(horizon, replications, self.limit)
    }

    // The version with these lines, or the first fault.
    fn from_lines(
        alloc: Global,
        lines: Vec<Numbered>,
        horizon: u64,
        replications: Vec<Replication>,
        limit: u64,
    ) -> Result<Version, ModelFault>
        requires { AreNumbered lines.items }
        ensures { Makes (listing_of lines.items horizon replications.items limit) result }
    {
        let horizon = checked_horizon(lines.as_slice(), horizon, replications.as_slice(), limit)?;
        let tabled = Arc::new(alloc, Tabled::new(alloc, lines)?)?;
        Ok(Version {
            tabled,
            horizon,
            replications,
            limit,
        })
    }

    // The version with these settings and the statements of this one, which both then share; or the first fault.
    fn with_settings(
        &self,
        horizon: u64,
        replications: Vec<Replication>,
        limit: u64,
    ) -> Result<Version, ModelFault>
        ensures { Makes (listing_of self.now.lines horizon replications.items limit) result }
    {
        let horizon = checked_horizon(
            self.tabled.lines.as_slice(),
            horizon,
            replications.as_slice(),
            limit,
        )?;
        Ok(Version {
            tabled: Arc::try_clone(&self.tabled)?,
            horizon,
            replications,
            limit,
        })
    }

    /// An equal version. Both share the statements. It has no fault, so only memory can be refused.
    pub fn copy(&self, alloc: Global) -> Result<Version, AllocError>
        ensures { IfOk result (λ v. v ≡ self.now) }
    {
        Ok(Version {
            tabled: Arc::try_clone(&self.tabled)?,
            horizon: self.horizon,
            replications: Vec::from_slice(alloc, self.replications.as_slice())?,
            limit: self.limit,
        })
    }

    /// The block with this id.
    #[inline(always)]
    pub fn block(&self, id: StatementId) -> Option<&Block>
        ensures { option_copied result ≡ block_at self.now id }
    {
        let tabled = &*self.tabled;
        block_of(tabled.lines.as_slice(), tabled.tables.places.as_slice(), id)
    }

    /// The id of the block after the block with this id.
    #[inline(always)]
    pub fn after(&self, id: StatementId) -> Option<StatementId>
        ensures { result ≡ after_at self.now id }
    {
        after_of(self.tabled.tables.places.as_slice(), id)
    }

    /// The position of the block with this id, from 1, among the blocks.
    pub fn position(&self, id: StatementId) -> Option<u64>
        ensures { result ≡ position_at self.now id }
    {
        position_of(self.tabled.tables.places.as_slice(), id)
    }

    /// The id of the block with this label.
    #[inline(always)]
    pub fn label(&self, name: &Name) -> Option<StatementId>
        ensures { result ≡ label_at self.now name.now }
    {
        self.tabled.tables.labels.get(name).copied()
    }

    /// What the name is defined as.
    pub fn definition(&self, name: &Name) -> Option<&Definition>
        ensures { option_copied result ≡ definition_at self.now name.now }
    {
        self.tabled.tables.definitions.get(name)
    }

    /// The number that the name stands for, by an EQU.
    #[tactic(auto, using(crate::proofs::Once::number_once, crate::proofs::Once::no_number))]
    #[inline(always)]
    pub fn number_of(&self, name: &Name) -> Option<Val>
        ensures { result ≡ number_at self.now name.now }
    {
        if !self.tabled.tables.has_equ {
            return None;
        }
        match self.tabled.tables.definitions.get(name) {
            Some(Definition::Equ { value }) => Some(*value),
            _ => None,
        }
    }

    /// How many units the storage of this name has; 0 where there is no such storage.
    #[tactic(auto, using(crate::proofs::Once::capacity_once))]
    #[inline(always)]
    pub fn capacity(&self, name: &Name) -> u64
        ensures { result ≡ capacity_at self.now name.now }
    {
        match self.tabled.tables.definitions.get(name) {
            Some(Definition::Storage { capacity }) => *capacity,
            _ => 0,
        }
    }

    /// What a TABULATE of this name evaluates, where it is a TABLE's.
    #[tactic(auto, using(crate::proofs::Once::argument_once))]
    pub fn argument(&self, name: &Name) -> Option<&Expr>
        ensures { option_copied result ≡ argument_at self.now name.now }
    {
        match self.tabled.tables.definitions.get(name) {
            Some(Definition::Table(table)) => Some(&table.argument),
            _ => None,
        }
    }

    /// The i-th command, from 1.
    pub fn command(&self, i: u64) -> Option<&Command>
        ensures { option_copied result ≡ command_at self.now i }
    {
        nth(self.tabled.tables.commands.as_slice(), i)
    }

    /// The ids of the GENERATEs, in order.
    pub fn generates(&self) -> &[StatementId]
        ensures { result.now ≡ generates_in self.now.lines }
    {
        self.tabled.tables.generates.as_slice()
    }

    /// The i-th statement, from 1.
    pub fn statement(&self, i: u64) -> Option<&Statement>
        ensures { option_copied result ≡ statement_at self.now i }
    {
        match nth(self.tabled.lines.as_slice(), i) {
            Some(line) => Some(&line.statement),
            None => None,
        }
    }

    /// How many statements there are, at most 2,000.
    pub fn statements(&self) -> usize
        ensures value { result ≡ length self.now.lines }
        ensures bound { result ≤ 2000 }
    {
        self.tabled.lines.len()
    }

    /// The statements with their ids, in order.
    pub fn lines(&self) -> &[Numbered]
        ensures value { result.now ≡ self.now.lines }
        ensures well { Well self.now }
    {
        self.tabled.lines.as_slice()
    }

    /// Each statement has an id of its own, from 1.
    pub fn lemma_ids_are_distinct(&self)
        ensures { AreNumbered self.now.lines }
    {
        // A version is made so.
        let _ = &self.tabled.lines;
    }

    /// How many blocks there are.
    pub fn blocks(&self) -> u64
        ensures { result ≡ blocks self.now }
    {
        self.tabled.tables.blocks
    }

    /// How many STARTs there are.
    pub fn starts(&self) -> u64
        ensures { result ≡ starts self.now }
    {
        self.tabled.tables.starts
    }

    /// The i-th replication, from 1, in the order of adding.
    pub fn replication(&self, i: u64) -> Option<Replication>
        ensures { result ≡ replication_at self.now i }
    {
        nth(self.replications.as_slice(), i).copied()
    }

    /// The replications, in the order of adding.
    pub fn replications(&self) -> &[Replication]
        ensures { result.now ≡ self.now.replications }
    {
        self.replications.as_slice()
    }

    /// The seed of the replication with this number, 1 to 2,147,483,646.
    pub fn seed(&self, number: u64) -> Option<u64>
        ensures value { result ≡ seed_at self.now number }
        ensures least { IfSome result (λ s. 1 ≤ s) }
        ensures greatest { IfSome result (λ s. s ≤ 2147483646) }
    {
        seed_of(self.replications.as_slice(), number)
    }

    /// The horizon, 1 to 1,000,000,000,000 ticks.
    pub fn horizon(&self) -> Time
        ensures value { result ≡ self.now.horizon }
        ensures least { 1 ≤ result }
        ensures greatest { result ≤ 1000000000000 }
    {
        self.horizon
    }

    /// The clock at a time, where that lies within the horizon.
    #[inline(always)]
    pub fn within(&self, time: Time) -> Option<Clock>
        ensures { result ≡ (if nat_le time self.now.horizon then Some time else None) }
    {
        if time <= self.horizon {
            match Clock::at(time) {
                Some(clock) => Some(clock),
                // No horizon lies beyond the last clock time, so that is not tested again.
                None => unreachable!(),
            }
        } else {
            None
        }
    }

    /// The step limit, 1 to 1,000,000.
    pub fn limit(&self) -> u64
        ensures value { result ≡ self.now.limit }
        ensures least { 1 ≤ result }
        ensures greatest { result ≤ 1000000 }
    {
        self.limit
    }
}

impl Defs for Version {
    ghost use Rattle.gw_meaning.specs.Listing.{variable_at, function_at};

    ghost variable_of = { λ t name. variable_at t name };

    ghost function_of = { λ t name. function_at t name };

    #[tactic(auto, using(crate::proofs::Once::variable_once))]
    #[inline(always)]
    fn variable(&self, name: &Name) -> Option<&Expr> {
        match self.tabled.tables.definitions.get(name) {
            Some(Definition::Variable { expression }) => Some(expression),
            _ => None,
        }
    }

    #[tactic(auto, using(crate::proofs::Once::function_once))]
    #[inline(always)]
    fn function(&self, name: &Name) -> Option<&Function> {
        match self.tabled.tables.definitions.get(name) {
            Some(Definition::Function(function)) => Some(function),
            _ => None,
        }
    }
}
