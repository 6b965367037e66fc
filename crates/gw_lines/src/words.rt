ghost use Rattle.std.specs.Prelude.{◌≡◌, Some, IfOk};
ghost use Rattle.gw_names.specs.Words.{upper_of};
ghost use Rattle.gw_lines.specs.Reading.{Gives, IsFault};
ghost use Rattle.gw_lines.specs.Classes.{word_of, behind_word};
ghost use Rattle.gw_lines.specs.Lines.{verb_in, is_command, needs_label, no_label_of, label_of, plain_of, kept_with_operator, kept_behind, operands_of, operands_behind, unlabelled_of, labelled_of, fault_without_verb, coded_of};
ghost use Rattle.gw_lines.specs.Edits.{is_function, verb_of_words};

use crate::auxiliary::takes_operator;
use crate::body::read_body;
use crate::class::{are_plain, word};
use crate::fault::LineFault;
use crate::form::forms_of_definition;
use crate::listed::listed;
use gw_expr::Row;
use gw_meaning::Statement;
use gw_names::{DefinitionVerb, Name, Verb};
use std::alloc::{AllocError, Global};

/// The statement that code spells, after a line number and without its comment.
#[tactic(auto, unfolding(crate::specs::Lines::coded_of))]
pub(crate) fn read_code(alloc: Global, code: &[u8]) -> Result<Statement, LineFault>
    ensures { Gives (λ s. s) result (coded_of code.now) }
{
    let (first, behind) = word(code);
    if let Some(verb) = verb(alloc, first)? {
        return unlabelled(alloc, verb, behind);
    }
    let (second, behind) = word(behind);
    match verb(alloc, second)? {
        Some(verb) => labelled(alloc, first, verb, behind),
        None => Err(without_verb(alloc, code, first, second)),
    }
}

/// Whether the verb among the first two words of code is FUNCTION.
pub(crate) fn names_function(alloc: Global, code: &[u8]) -> Result<bool, AllocError>
    ensures { IfOk result (λ b. b ≡ is_function (verb_of_words code.now)) }
{
    let (first, behind) = word(code);
    match verb(alloc, first)? {
        Some(verb) => Ok(is_function(verb)),
        None => match verb(alloc, word(behind).0)? {
            Some(verb) => Ok(is_function(verb)),
            None => Ok(false),
        },
    }
}

fn is_function(verb: Verb) -> bool
    ensures { result ≡ is_function (Some verb) }
{
    match verb {
        Verb::Definition(DefinitionVerb::Function) => true,
        _ => false,
    }
}

fn verb(alloc: Global, word: &[u8]) -> Result<Option<Verb>, AllocError>
    ensures { IfOk result (λ o. o ≡ verb_in word.now) }
{
    Ok(Verb::read(&word.to_ascii_uppercase(alloc)?))
}

#[tactic(auto, unfolding(crate::specs::Lines::unlabelled_of))]
fn unlabelled(alloc: Global, verb: Verb, bytes: &[u8]) -> Result<Statement, LineFault>
    ensures { Gives (λ s. s) result (unlabelled_of verb bytes.now) }
{
    let operands = operands_behind(alloc, verb, bytes)?;
    no_label(verb)?;
    let body = read_body(alloc, verb, &operands)?;
    Ok(Statement {
        label: None,
        body,
        operands: Row::from_vec(operands),
    })
}

#[tactic(auto, unfolding(crate::specs::Lines::labelled_of))]
fn labelled(alloc: Global, word: &[u8], verb: Verb, bytes: &[u8]) -> Result<Statement, LineFault>
    ensures { Gives (λ s. s) result (labelled_of word.now verb bytes.now) }
{
    if !are_plain(word) {
        return Err(LineFault::BadByte);
    }
    let operands = operands_behind(alloc, verb, bytes)?;
    let label = label(alloc, verb, word)?;
    let body = read_body(alloc, verb, &operands)?;
    Ok(Statement {
        label: Some(label),
        body,
        operands: Row::from_vec(operands),
    })
}

// The operands after a verb and its blanks, and its operator before them.
#[tactic(auto, unfolding(crate::specs::Lines::operands_behind))]
fn operands_behind(alloc: Global, verb: Verb, bytes: &[u8]) -> Result<Vec<u8>, LineFault>
    ensures { Gives (λ v. v.items) result (operands_behind verb bytes.now) }
{
    plain(kept_behind(alloc, verb, bytes)?)
}

fn kept_behind(alloc: Global, verb: Verb, bytes: &[u8]) -> Result<Vec<u8>, AllocError>
    ensures { IfOk result (λ v. v.items ≡ upper_of (kept_behind verb bytes.now)) }
{
    if takes_operator(verb) {
        kept_with_operator(alloc, bytes)
    } else {
        listed(alloc, bytes)
    }
}

// The operator's word, and the operand list after one blank, where there is one.
fn kept_with_operator(alloc: Global, bytes: &[u8]) -> Result<Vec<u8>, AllocError>
    ensures { IfOk result (λ v. v.items ≡ upper_of (kept_with_operator bytes.now)) }
{
    let (operator, behind) = word(bytes);
    let mut text = operator.to_ascii_uppercase(alloc)?;
    let operands = listed(alloc, behind)?;
    if !operands.is_empty() {
        text.push(b' ')?;
        text.extend_from_slice(&operands)?;
    }
    Ok(text)
}

/// The operand list that a line of pairs is.
#[tactic(auto, unfolding(crate::specs::Lines::operands_of))]
pub fn operands(alloc: Global, bytes: &[u8]) -> Result<Vec<u8>, LineFault>
    ensures { Gives (λ v. v.items) result (operands_of bytes.now) }
{
    plain(listed(alloc, bytes)?)
}

// A text whose bytes may all stand outside comments.
fn plain(text: Vec<u8>) -> Result<Vec<u8>, LineFault>
    ensures { Gives (λ v. v.items) result (plain_of text.items) }
{
    if are_plain(&text) {
        Ok(text)
    } else {
        Err(LineFault::BadByte)
    }
}

#[tactic(auto, unfolding(crate::specs::Lines::label_of))]
fn label(alloc: Global, verb: Verb, word: &[u8]) -> Result<Name, LineFault>
    ensures { Gives (λ n. n) result (label_of verb word.now) }
{
    if is_command(verb) {
        return Err(LineFault::BadLabel);
    }
    match Name::read(alloc, word)? {
        Some(name) => Ok(name),
        None => Err(LineFault::BadLabel),
    }
}

// A command has no label.
fn is_command(verb: Verb) -> bool
    ensures { result ≡ is_command verb }
{
    matches!(verb, Verb::Command(_))
}

// Nothing, where the verb needs no label.
#[tactic(auto, unfolding(crate::specs::Lines::no_label_of))]
fn no_label(verb: Verb) -> Result<(), LineFault>
    ensures { Gives (λ u. u) result (no_label_of verb) }
{
    if needs_label(verb) {
        Err(LineFault::BadLabel)
    } else {
        Ok(())
    }
}

// A definition has a label.
fn needs_label(verb: Verb) -> bool
    ensures { result ≡ needs_label verb }
{
    match verb {
        Verb::Definition(verb) => forms_of_definition(verb).is_some(),
        Verb::Block(_) | Verb::Command(_) => false,
    }
}

// The fault of code with no verb among its first two words.
#[tactic(auto, unfolding(crate::specs::Lines::fault_without_verb))]
fn without_verb(alloc: Global, code: &[u8], first: &[u8], second: &[u8]) -> LineFault
    ensures { IsFault result (fault_without_verb code.now first.now second.now) }
{
    if !are_plain(code) {
        return LineFault::BadByte;
    }
    if second.is_empty() {
        return LineFault::UnknownVerb;
    }
    match Name::read(alloc, first) {
        Ok(Some(_)) => LineFault::UnknownVerb,
        Ok(None) => LineFault::BadLabel,
        Err(_) => LineFault::Memory,
    }
}
