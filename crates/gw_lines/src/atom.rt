ghost use Rattle.std.specs.Prelude.{◌≡◌, IfOk};
ghost use Rattle.gw_lines.specs.Attributes.{or_atom, attribute_of};
ghost use Rattle.gw_lines.specs.Atoms.{constant_of, atom_of};

use crate::attribute::read_attribute;
use crate::number::value;
use gw_expr::Atom;
use gw_names::Name;
use std::alloc::{AllocError, Global};

/// The value without parentheses that a text is: a name that stands for a number, a constant or an attribute.
pub fn atom_of(alloc: Global, text: &[u8]) -> Result<Option<Atom>, AllocError>
    ensures { IfOk result (λ o. o ≡ atom_of text.now) }
{
    match Name::read(alloc, text)? {
        Some(name) => Ok(Some(Atom::Number(name))),
        None => or_attribute(alloc, constant(text), text),
    }
}

/// What was read of a text, or the attribute that it is.
pub(crate) fn or_attribute(
    alloc: Global,
    read: Option<Atom>,
    text: &[u8],
) -> Result<Option<Atom>, AllocError>
    ensures { IfOk result (λ o. o ≡ or_atom read (attribute_of text.now)) }
{
    match read {
        Some(atom) => Ok(Some(atom)),
        None => read_attribute(alloc, text),
    }
}

/// The constant that a text is.
pub fn constant(text: &[u8]) -> Option<Atom>
    ensures { result ≡ constant_of text.now }
{
    Some(Atom::Constant(value(text)?))
}
