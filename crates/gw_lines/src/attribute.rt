ghost use Rattle.std.specs.Prelude.{◌≡◌, IfOk};
ghost use Rattle.gw_lines.specs.Attributes.{scope_of, own_in, number_in, name_in, subject_of, of_class, attribute_in, attribute_of};

use crate::number::{LIMIT, from_one};
use gw_expr::{Atom, Subject};
use gw_names::{CLASSES, Class, Name};
use std::alloc::{AllocError, Global};

// The number of random streams.
const STREAMS: u32 = 7;

/// What the attributes of a class are of.
#[derive(Clone, Copy)]
pub enum Scope {
    /// The run, or the transaction that evaluates it.
    Alone,
    /// An entity or a definition, by its number or its name.
    Entity,
    /// A block, by its label.
    Block,
    /// A random stream, by its number.
    Stream,
}

/// The attribute that a text in upper case is.
#[tactic(auto, unfolding(crate::specs::Attributes::attribute_of))]
pub(crate) fn read_attribute(alloc: Global, text: &[u8]) -> Result<Option<Atom>, AllocError>
    ensures { IfOk result (λ o. o ≡ attribute_of text.now) }
{
    attribute_in(alloc, &CLASSES, text)
}

// The attribute of the first of these classes that a text is one of.
fn attribute_in(alloc: Global, classes: &[Class], text: &[u8]) -> Result<Option<Atom>, AllocError>
    ensures { IfOk result (λ o. o ≡ attribute_in classes.now text.now) }
{
    for class in classes {
        if let Some(attribute) = of_class(alloc, *class, text)? {
            return Ok(Some(attribute));
        }
    }
    Ok(None)
}

// The attribute of a class that a text is.
fn of_class(alloc: Global, class: Class, text: &[u8]) -> Result<Option<Atom>, AllocError>
    ensures { IfOk result (λ o. o ≡ of_class class text.now) }
{
    let word = class.word();
    if !text.starts_with(word) {
        return Ok(None);
    }
    match subject(alloc, scope_of(class), &text[word.len()..])? {
        Some(of) => Ok(Some(Atom::Attribute(class, of))),
        None => Ok(None),
    }
}

// What the attributes of a class are of.
fn scope_of(class: Class) -> Scope
    ensures { result ≡ scope_of class }
{
    match class {
        Class::C1 | Class::Ac1 | Class::Tg1 | Class::M1 | Class::Xn1 | Class::Pr => Scope::Alone,
        Class::P
        | Class::F
        | Class::Fc
        | Class::S
        | Class::R
        | Class::Sc
        | Class::Sm
        | Class::Q
        | Class::Qc
        | Class::Fn
        | Class::Qm
        | Class::Qz
        | Class::X
        | Class::Ls
        | Class::Ch
        | Class::Cc
        | Class::Tc
        | Class::V => Scope::Entity,
        Class::N | Class::W => Scope::Block,
        Class::Rn => Scope::Stream,
    }
}

// The subject that a text is after the word of a class.
fn subject(alloc: Global, scope: Scope, text: &[u8]) -> Result<Option<Subject>, AllocError>
    ensures { IfOk result (λ o. o ≡ subject_of scope text.now) }
{
    match scope {
        Scope::Alone => Ok(own(text)),
        Scope::Entity => match numbered(LIMIT, text) {
            Some(of) => Ok(Some(of)),
            None => named(alloc, text),
        },
        Scope::Block => named(alloc, text),
        Scope::Stream => Ok(numbered(STREAMS, text)),
    }
}

fn own(text: &[u8]) -> Option<Subject>
    ensures { result ≡ own_in text.now }
{
    match text {
        [] => Some(Subject::Own),
        _ => None,
    }
}

fn numbered(most: u32, text: &[u8]) -> Option<Subject>
    ensures { result ≡ number_in most text.now }
{
    Some(Subject::Number(from_one(most, text)?))
}

fn named(alloc: Global, text: &[u8]) -> Result<Option<Subject>, AllocError>
    ensures { IfOk result (λ o. o ≡ name_in text.now) }
{
    match text {
        [] => Ok(None),
        [first, name @ ..] => {
            if *first != b'$' {
                return Ok(None);
            }
            match Name::read(alloc, name)? {
                Some(name) => Ok(Some(Subject::Name(name))),
                None => Ok(None),
            }
        }
    }
}
