ghost use Rattle.std.specs.Prelude.{◌≡◌, ◌||◌, ◌&&◌, ℕ, List, Some, None, false, is_some, if◌then◌else◌, IfOk, OnOk, IfErr};
ghost use Rattle.std.specs.BTreeMap as tree;
ghost use Rattle.std.specs.Ordering.{nat_cmp};
ghost use Rattle.std.specs.Str.{bytes_eq};
ghost use Rattle.std.specs.Cmp.Lexicographic.{slice_cmp};
ghost use Rattle.gw_meaning.specs.Listing.{labelled_in, defined_in, defines, or_next, is_block, has_label};
ghost use Rattle.gw_model.specs.Faults.{IsFault, label_fault_of, has_label_twice};
ghost use Rattle.gw_model.specs.Listed.{counted_label};
ghost use Rattle.gw_model.specs.Tables.{is_told};

use crate::fault::ModelFault;
use crate::missing::{has_equ_named, has_unknown_definition, has_unknown_label};
use gw_meaning::{Body, Definition, Numbered, StatementId};
use gw_names::Name;
use std::alloc::{AllocError, Global};
use std::collections::BTreeMap;

/// What the labels of blocks and definitions stand for.
#[derive(Drop)]
pub struct Names {
    /// The id of the block with each label.
    pub labels: BTreeMap<Name, StatementId>,
    /// What each name is defined as.
    pub definitions: BTreeMap<Name, Definition>,
}

/// What the labels of these lines stand for. No two blocks or definitions may have one label, and what operands name
/// must be there: a label must be that of a block, and a definition must be of its kind.
pub(crate) fn sound_names(alloc: Global, lines: &[Numbered]) -> Result<Names, ModelFault>
    ensures labels { IfOk result (λ names. (name : List ℕ) →
        tree.get (slice_cmp nat_cmp) names.labels name ≡ labelled_in name lines.now) }
    ensures definitions { IfOk result (λ names. (name : List ℕ) →
        tree.get (slice_cmp nat_cmp) names.definitions name ≡ defined_in name lines.now) }
    ensures sound { OnOk result (label_fault_of lines.now ≡ None) }
    ensures err { IfErr result (IsFault (label_fault_of lines.now)) }
{
    let names = names_of(alloc, lines)?;
    if has_unknown_label(lines, &names.labels) {
        return Err(ModelFault::NoSuchLabel);
    }
    if has_unknown_definition(lines, &names.definitions) {
        return Err(ModelFault::NoSuchDefinition);
    }
    if has_equ_named(lines, &names.definitions) {
        return Err(ModelFault::EquNamedDefinition);
    }
    Ok(names)
}

// What the labels of these lines stand for. No two blocks or definitions may have one label.
fn names_of(alloc: Global, lines: &[Numbered]) -> Result<Names, ModelFault>
    ensures labels { IfOk result (λ names. (name : List ℕ) →
        tree.get (slice_cmp nat_cmp) names.labels name ≡ labelled_in name lines.now) }
    ensures definitions { IfOk result (λ names. (name : List ℕ) →
        tree.get (slice_cmp nat_cmp) names.definitions name ≡ defined_in name lines.now) }
    ensures once { OnOk result (has_label_twice lines.now ≡ false) }
    ensures err { IfErr result (IsFault (label_fault_of lines.now)) }
{
    let mut names = Names {
        labels: BTreeMap::new(alloc),
        definitions: BTreeMap::new(alloc),
    };
    let mut index = lines.len();
    while index > 0 {
        index -= 1;
        let told = names.tell(alloc, &lines[index])?;
        if told {
            return Err(ModelFault::LabelTwice);
        }
    }
    Ok(names)
}

impl Names {
    // Notes what the label of a statement stands for, in place of what it stood for. Whether it stood for something.
    fn tell(&mut self, alloc: Global, line: &Numbered) -> Result<bool, AllocError>
        ensures labels { OnOk result ((name : List ℕ) → tree.get (slice_cmp nat_cmp) self.new.labels name ≡
            (if is_block line.now && has_label name line.now.statement.label then Some line.now.number
            else tree.get (slice_cmp nat_cmp) self.old.labels name)) }
        ensures definitions { OnOk result ((name : List ℕ) → tree.get (slice_cmp nat_cmp) self.new.definitions name ≡
            or_next (defines name line.now) (tree.get (slice_cmp nat_cmp) self.old.definitions name)) }
        ensures told { IfOk result (λ told. told ≡ is_told self.old (counted_label line.now)) }
    {
        let Some(name) = &line.statement.label else {
            return Ok(false)
        };
        match &line.statement.body {
            Body::Block(_) => {
                let told = put(&mut self.labels, name, line.number)?;
                Ok(told || self.definitions.get(name).is_some())
            }
            Body::Definition(definition) => {
                let told = put(&mut self.definitions, name, definition.copy(alloc)?)?;
                Ok(told || self.labels.get(name).is_some())
            }
            Body::Command(_) => Ok(false),
        }
    }
}

// Notes what a name stands for. Whether it stood for something.
fn put<T: Drop>(table: &mut BTreeMap<Name, T>, name: &Name, value: T) -> Result<bool, AllocError>
    ensures table { OnOk result ((k : List ℕ) → tree.get (slice_cmp nat_cmp) table.new k ≡
        (if bytes_eq name.now k then Some value else tree.get (slice_cmp nat_cmp) table.old k)) }
    ensures told { IfOk result (λ told. told ≡ is_some (tree.get (slice_cmp nat_cmp) table.old name.now)) }
{
    let old = table.insert(name.clone()?, value)?;
    Ok(old.is_some())
}
