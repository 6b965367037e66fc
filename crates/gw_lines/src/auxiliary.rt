// What stands beside a verb's operands: an operator in front of them, or a sign after the first.
ghost use Rattle.std.specs.Prelude.{◌≡◌, IfOk};
ghost use Rattle.gw_lines.specs.Reading.{Gives};
ghost use Rattle.gw_lines.specs.Auxiliaries.{operators, operator_word, takes_operator, operator_of, takes_sign, last_byte, sign_in, sign_of, cut_off};
ghost use Rattle.gw_lines.specs.Bodies.{operator_fault, read_auxiliary};
ghost use Rattle.gw_lines.specs.Classes.{front_of, rest_of};
ghost use Rattle.gw_lines.specs.declared.class.Class.TheVariants as class;

use crate::class::{Class, span, word};
use crate::fault::LineFault;
use gw_meaning::{Auxiliary, Condition, Switching};
use gw_names::{BlockVerb, Verb};
use std::alloc::{AllocError, Global};

/// What stands beside the operands of a verb's text: the operator in front of them, or the sign after the first of
/// them. An operator that is missing, or is none of the verb's, is a fault of operand 0.
pub fn auxiliary_of(verb: Verb, text: &[u8]) -> Result<Auxiliary, LineFault>
    ensures { Gives (λ a. a) result (read_auxiliary verb text.now) }
{
    if !takes_operator(verb) {
        return Ok(sign_of(verb, text));
    }
    match operator_of(verb, word(text).0) {
        Some(operator) => Ok(operator),
        None => Err(operator_fault(text)),
    }
}

// The fault of a text in which no operator of the verb stands.
fn operator_fault(text: &[u8]) -> LineFault
    ensures { result ≡ operator_fault text.now }
{
    match text {
        [] => LineFault::MissingOperand(0),
        _ => LineFault::BadOperand(0),
    }
}

/// Whether an operator stands in front of the verb's operands.
pub(crate) fn takes_operator(verb: Verb) -> bool
    ensures { result ≡ takes_operator verb }
{
    !operators(verb).is_empty()
}

// The operators of each verb.
fn operators(verb: Verb) -> &'static [Auxiliary]
    ensures { result.now ≡ operators verb }
{
    match verb {
        Verb::Block(BlockVerb::Test) => &[
            Auxiliary::Equal,
            Auxiliary::NotEqual,
            Auxiliary::Greater,
            Auxiliary::GreaterOrEqual,
            Auxiliary::Less,
            Auxiliary::LessOrEqual,
        ],
        Verb::Block(BlockVerb::Gate) => &[
            Auxiliary::Gate(Condition::InUse),
            Auxiliary::Gate(Condition::NotInUse),
            Auxiliary::Gate(Condition::IsSet),
            Auxiliary::Gate(Condition::IsReset),
            Auxiliary::Gate(Condition::Empty),
            Auxiliary::Gate(Condition::NotEmpty),
            Auxiliary::Gate(Condition::Full),
            Auxiliary::Gate(Condition::NotFull),
        ],
        Verb::Block(BlockVerb::Logic) => &[
            Auxiliary::Logic(Switching::Set),
            Auxiliary::Logic(Switching::Reset),
            Auxiliary::Logic(Switching::Invert),
        ],
        _ => &[],
    }
}

// The operator's word, in upper case.
fn operator_word(operator: Auxiliary) -> &'static [u8]
    ensures { result.now ≡ operator_word operator }
{
    match operator {
        Auxiliary::Equal => b"E",
        Auxiliary::NotEqual => b"NE",
        Auxiliary::Greater => b"G",
        Auxiliary::GreaterOrEqual => b"GE",
        Auxiliary::Less => b"L",
        Auxiliary::LessOrEqual => b"LE",
        Auxiliary::Gate(Condition::InUse) => b"U",
        Auxiliary::Gate(Condition::NotInUse) => b"NU",
        Auxiliary::Gate(Condition::IsSet) => b"LS",
        Auxiliary::Gate(Condition::IsReset) => b"LR",
        Auxiliary::Gate(Condition::Empty) => b"SE",
        Auxiliary::Gate(Condition::NotEmpty) => b"SNE",
        Auxiliary::Gate(Condition::Full) => b"SF",
        Auxiliary::Gate(Condition::NotFull) => b"SNF",
        Auxiliary::Logic(Switching::Set) => b"S",
        Auxiliary::Logic(Switching::Reset) => b"R",
        Auxiliary::Logic(Switching::Invert) => b"I",
        Auxiliary::Absent | Auxiliary::Plus | Auxiliary::Minus => b"",
    }
}

// The operator of the verb with this word, in upper case, if it has one.
#[tactic(auto, unfolding(crate::specs::Auxiliaries::operator_of))]
fn operator_of(verb: Verb, word: &[u8]) -> Option<Auxiliary>
    ensures { result ≡ operator_of verb word.now }
{
    operators(verb)
        .iter()
        .copied()
        .find(|o| operator_word(*o) == word)
}

// The sign after the first operand of a verb's operand list.
fn sign_of(verb: Verb, text: &[u8]) -> Auxiliary
    ensures { result ≡ sign_of verb text.now }
{
    if takes_sign(verb) {
        sign_in(last_byte(span(Class::Operand, text).0))
    } else {
        Auxiliary::Absent
    }
}

/// A list without the sign after its first operand.
pub(crate) fn without_sign(alloc: Global, text: &[u8]) -> Result<Vec<u8>, AllocError>
    ensures { IfOk result (λ v. v.items ≡ cut_off (front_of class.Operand text.now) (rest_of class.Operand text.now)) }
{
    let (operand, others) = span(Class::Operand, text);
    let len = operand.len().saturating_sub(1);
    let mut bare = Vec::from_slice(alloc, &operand[..len])?;
    bare.extend_from_slice(others)?;
    Ok(bare)
}

fn takes_sign(verb: Verb) -> bool
    ensures { result ≡ takes_sign verb }
{
    match verb {
        Verb::Block(BlockVerb::Assign | BlockVerb::Savevalue) => true,
        _ => false,
    }
}

// The last byte of an operand, where another stands before it.
fn last_byte(operand: &[u8]) -> Option<u8>
    ensures { result ≡ last_byte operand.now }
{
    if operand.len() > 1 {
        operand.get(operand.len() - 1).copied()
    } else {
        None
    }
}

fn sign_in(byte: Option<u8>) -> Auxiliary
    ensures { result ≡ sign_in byte }
{
    match byte {
        Some(b'+') => Auxiliary::Plus,
        Some(b'-') => Auxiliary::Minus,
        _ => Auxiliary::Absent,
    }
}
