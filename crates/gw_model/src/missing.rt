// What a name must be, and is not: each fault is a test of what operands name. An operand is one of a block, the
// expression of a VARIABLE, or the argument of a FUNCTION or of a TABLE.
ghost use Rattle.std.specs.Prelude.{◌≡◌, ◌||◌, ◌&&◌, ℕ, List, is_some, not, option_copied};
ghost use Rattle.std.specs.BTreeMap as tree;
ghost use Rattle.std.specs.Ordering.{nat_cmp};
ghost use Rattle.std.specs.Cmp.Lexicographic.{slice_cmp};
ghost use Rattle.gw_names.specs.declared.verb.DefinitionVerb.TheVariants.{Equ};
ghost use Rattle.gw_meaning.specs.Listing.{defined_in, labelled_in};
ghost use Rattle.gw_model.specs.Faults.{has_equ_named, has_unknown_definition, has_unknown_label, has_verb, is_equ_named, is_undefined, is_unknown_label};

use crate::named::{Needed, Test, any_named};
use gw_meaning::{Definition, Numbered, StatementId};
use gw_names::{DefinitionVerb, Name};
use std::collections::BTreeMap;

/// Whether an operand has the label of no block.
#[tactic(auto, unfolding(crate::specs::Faults::has_unknown_label))]
pub fn has_unknown_label(lines: &[Numbered], labels: &BTreeMap<Name, StatementId>) -> bool
    requires { (name : List ℕ) → tree.get (slice_cmp nat_cmp) labels.now name ≡ labelled_in name lines.now }
    ensures { result ≡ has_unknown_label lines.now }
{
    any_named(lines, &UnknownLabel(labels))
}

/// Whether an operand has a name with neither the definition that it needs nor an EQU in its place, or no name where it
/// needs one.
#[tactic(auto, unfolding(crate::specs::Faults::has_unknown_definition))]
pub fn has_unknown_definition(lines: &[Numbered], definitions: &BTreeMap<Name, Definition>) -> bool
    requires { (name : List ℕ) → tree.get (slice_cmp nat_cmp) definitions.now name ≡ defined_in name lines.now }
    ensures { result ≡ has_unknown_definition lines.now }
{
    any_named(lines, &Undefined(definitions))
}

/// Whether an operand has the name of a storage, of a TABLE, of a VARIABLE or of a FUNCTION that is an EQU's.
#[tactic(auto, unfolding(crate::specs::Faults::has_equ_named))]
pub fn has_equ_named(lines: &[Numbered], definitions: &BTreeMap<Name, Definition>) -> bool
    requires { (name : List ℕ) → tree.get (slice_cmp nat_cmp) definitions.now name ≡ defined_in name lines.now }
    ensures { result ≡ has_equ_named lines.now }
{
    any_named(lines, &EquNamed(definitions))
}

// The label of no block, where these are the labels.
#[derive(Drop)]
struct UnknownLabel<'a>(&'a BTreeMap<Name, StatementId>);

// A name with neither the definition that it needs nor an EQU in its place.
#[derive(Drop)]
struct Undefined<'a>(&'a BTreeMap<Name, Definition>);

// The name of an EQU in the place of another definition.
#[derive(Drop)]
struct EquNamed<'a>(&'a BTreeMap<Name, Definition>);

impl<'a> Test for UnknownLabel<'a> {
    ghost holds = { λ s. is_unknown_label (λ name. is_some (tree.get (slice_cmp nat_cmp) s.0.now name)) };

    #[tactic(auto, unfolding(crate::specs::Faults::is_unknown_label))]
    fn holds(&self, needed: Needed, name: Option<&Name>) -> bool {
        match (needed, name) {
            (Needed::Block, Some(name)) => self.0.get(name).is_none(),
            (Needed::Block, None) => true,
            (Needed::Definition(_), _) => false,
        }
    }
}

impl<'a> Test for Undefined<'a> {
    ghost holds = { λ s. is_undefined (λ name. tree.get (slice_cmp nat_cmp) s.0.now name) };

    #[tactic(auto, unfolding(crate::specs::Faults::is_undefined))]
    fn holds(&self, needed: Needed, name: Option<&Name>) -> bool {
        match (needed, name) {
            (Needed::Definition(verb), Some(name)) => is_undefined(verb, self.0.get(name)),
            (Needed::Definition(_), None) => true,
            (Needed::Block, _) => false,
        }
    }
}

impl<'a> Test for EquNamed<'a> {
    ghost holds = { λ s. is_equ_named (λ name. tree.get (slice_cmp nat_cmp) s.0.now name) };

    #[tactic(auto, unfolding(crate::specs::Faults::is_equ_named))]
    fn holds(&self, needed: Needed, name: Option<&Name>) -> bool {
        match (needed, name) {
            (Needed::Definition(verb), Some(name)) => is_equ_for(verb, self.0.get(name)),
            (Needed::Definition(_), None) | (Needed::Block, _) => false,
        }
    }
}

// Whether there is neither a definition that has the verb nor an EQU in its place.
fn is_undefined(verb: DefinitionVerb, definition: Option<&Definition>) -> bool
    ensures { result ≡ not (has_verb verb (option_copied definition.entry) ||
        has_verb Equ (option_copied definition.entry)) }
{
    !has_verb(verb, definition) && !has_verb(DefinitionVerb::Equ, definition)
}

// Whether there is an EQU in the place of a definition that has the verb.
fn is_equ_for(verb: DefinitionVerb, definition: Option<&Definition>) -> bool
    ensures { result ≡ (has_verb Equ (option_copied definition.entry) &&
        not (has_verb verb (option_copied definition.entry))) }
{
    has_verb(DefinitionVerb::Equ, definition) && !has_verb(verb, definition)
}

// Whether a definition that is there has the verb.
fn has_verb(verb: DefinitionVerb, definition: Option<&Definition>) -> bool
    ensures { result ≡ has_verb verb (option_copied definition.entry) }
{
    match (verb, definition) {
        (DefinitionVerb::Storage, Some(Definition::Storage { .. })) => true,
        (DefinitionVerb::Equ, Some(Definition::Equ { .. })) => true,
        (DefinitionVerb::Variable, Some(Definition::Variable { .. })) => true,
        (DefinitionVerb::Function, Some(Definition::Function(_))) => true,
        (DefinitionVerb::Table, Some(Definition::Table(_))) => true,
        _ => false,
    }
}
