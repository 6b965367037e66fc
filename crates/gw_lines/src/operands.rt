ghost use Rattle.std.specs.Prelude.{◌≡◌, ◌≤◌, length, IfOk};
ghost use Rattle.gw_lines.specs.Reading.{Gives};
ghost use Rattle.gw_lines.specs.Operands.{left, added, each_of, missing_of, has_more, operands_of, missing_after};
ghost use Rattle.gw_lines.specs.Parts.{parts_of, goes_on, part_of, is_given, others_of};

use crate::class::{Class, piece};
use crate::fault::LineFault;
use crate::field::misfits;
use crate::form::Form;
use crate::operand::{Operand, operand_in};
use gw_names::Verb;
use std::alloc::Global;

/// The operands of a verb that a list spells, by their forms: `None` where one is absent. The first operand that is not
/// lawful is the fault, then the fourth where it does not go with those before it, then one that is beyond the forms,
/// then the first that is required and absent.
#[tactic(auto, unfolding(crate::specs::Operands::operands_of))]
pub(crate) fn read_operands(
    alloc: Global,
    verb: Verb,
    forms: &[Form],
    text: &[u8],
) -> Result<Vec<Option<Operand>>, LineFault>
    requires { length forms.now ≤ 7 }
    ensures { Gives (λ v. v.items) result (operands_of verb forms.now (parts_of text.now)) }
{
    let list = read_each(alloc, forms, text)?;
    if misfits(verb, &list.operands) {
        return Err(LineFault::BadOperand(4));
    }
    if list.has_more {
        return Err(LineFault::ExtraOperand(list.forms + 1));
    }
    match list.missing {
        Some(n) => Err(LineFault::MissingOperand(n)),
        None => Ok(list.operands),
    }
}

/// Whether the first operand of a list is given.
#[tactic(auto, using(crate::proofs::Parts::left_whole))]
pub fn is_given(text: &[u8]) -> bool
    ensures { result ≡ is_given (parts_of text.now) }
{
    let (part, _, _) = first_part(!text.is_empty(), text);
    !part.is_empty()
}

// A list that was read: the operands, and what its faults are, if it has some.
#[derive(Drop)]
struct ReadList {
    operands: Vec<Option<Operand>>,
    missing: Option<u8>,
    has_more: bool,
    forms: u8,
}

fn read_each(alloc: Global, forms: &[Form], text: &[u8]) -> Result<ReadList, LineFault>
    requires { length forms.now ≤ 7 }
    ensures operands { Gives (λ r. r.operands.items) result (each_of 1 forms.now (parts_of text.now)) }
    ensures missing { IfOk result (λ r. r.missing ≡ missing_of 1 forms.now (parts_of text.now)) }
    ensures more { IfOk result (λ r. r.has_more ≡ has_more forms.now (parts_of text.now)) }
    ensures count { IfOk result (λ r. r.forms ≡ length forms.now) }
{
    let mut operands = Vec::new(alloc);
    let mut missing = None;
    let mut more = !text.is_empty();
    let mut rest = text;
    let mut n = 0;
    for form in forms {
        n += 1;
        let (part, goes_on, others) = first_part(more, rest);
        add(alloc, form, n, more, part, &mut operands)?;
        missing = missing_after(missing, form, n, part);
        more = goes_on;
        rest = others;
    }
    Ok(ReadList {
        operands,
        missing,
        has_more: more,
        forms: n,
    })
}

// The first of the parts that are left, empty where none are, and what is left after it: more says that there are
// some.
fn first_part(more: bool, rest: &[u8]) -> (&[u8], bool, &[u8])
    ensures here { goes_on (left more rest.now) ≡ more }
    ensures part { result.0.now ≡ part_of (left more rest.now) }
    ensures others { left result.1 result.2.now ≡ others_of (left more rest.now) }
{
    if more {
        piece(Class::Operand, rest)
    } else {
        (b"", false, rest)
    }
}

// Adds the operand, where the statement lists it: more says that the list goes on here.
fn add(
    alloc: Global,
    form: &Form,
    n: u8,
    more: bool,
    part: &[u8],
    operands: &mut Vec<Option<Operand>>,
) -> Result<(), LineFault>
    ensures { Gives (λ u. operands.new.items) result (added form.now n more part.now operands.old.items) }
{
    if !form.presence.is_listed(more) {
        return Ok(());
    }
    match operand_in(alloc, form.kind, part)? {
        Some(operand) => Ok(operands.push(operand)?),
        None => Err(LineFault::BadOperand(n)),
    }
}

// The first operand that is missing, where n is the one that stands here.
fn missing_after(missing: Option<u8>, form: &Form, n: u8, part: &[u8]) -> Option<u8>
    ensures { result ≡ missing_after missing form.now n part.now }
{
    match missing {
        Some(first) => Some(first),
        None => {
            if form.presence.is_required() && part.is_empty() {
                Some(n)
            } else {
                None
            }
        }
    }
}
