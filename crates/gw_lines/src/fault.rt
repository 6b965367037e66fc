ghost use Rattle.std.specs.Prelude.{◌≡◌, ◌++◌, ◌+◌, ◌<◌, ◌≤◌, OnOk, OnErr, vec_len, vec_capacity};
ghost use Rattle.gw_lines.specs.Faults.{number_of, operand_of, operand_part, code_of};

use gw_nums::put_decimal;
use std::alloc::{AllocError, AllocFailed};
use thiserror::Error;

/// Why a line is no statement. The numbers L1 to L9 are the product's own.
#[derive(Clone, Copy, Debug, PartialEq, Eq, Error)]
pub enum LineFault {
    /// L1: the line has more than 250 bytes.
    #[error("the line has more than 250 bytes")]
    TooLong,
    /// L2: a byte of 128 or more stands outside comments.
    #[error("a byte outside comments is not ASCII")]
    BadByte,
    /// L3: no verb among the first two words.
    #[error("the line has no known verb")]
    UnknownVerb,
    /// L4: the word before the verb is no lawful name, or the verb takes no label, or it lacks one that it needs.
    #[error("the label is not lawful")]
    BadLabel,
    /// L5: the operand with this number (A is 1, the operator before it 0) is not of a lawful form.
    #[error("operand {0} is not lawful")]
    BadOperand(u8),
    /// L6: the operand with this number is absent and is needed.
    #[error("operand {0} is missing")]
    MissingOperand(u8),
    /// L7: the verb has no operand with this number.
    #[error("operand {0} is one too many")]
    ExtraOperand(u8),
    /// L8: a FUNCTION's pairs are not lawful or are missing, or lines stand after a statement that wants none.
    #[error("the lines behind the statement are not lawful")]
    BadPairs,
    /// L9: out of memory.
    #[error("out of memory")]
    Memory,
}

/// The first faulty line of a model.
#[derive(Clone, Copy, Debug, PartialEq, Eq, Error)]
#[error("line {line}: {fault}")]
pub struct FaultyLine {
    /// The line's number, from 1.
    pub line: u64,
    /// Why it is no statement.
    pub fault: LineFault,
}

impl LineFault {
    /// The fault's number, which a report prints after an L.
    pub fn number(self) -> u8
        ensures { result ≡ number_of self }
    {
        match self {
            LineFault::TooLong => 1,
            LineFault::BadByte => 2,
            LineFault::UnknownVerb => 3,
            LineFault::BadLabel => 4,
            LineFault::BadOperand(_) => 5,
            LineFault::MissingOperand(_) => 6,
            LineFault::ExtraOperand(_) => 7,
            LineFault::BadPairs => 8,
            LineFault::Memory => 9,
        }
    }

    /// The number of the operand that is at fault, if one is.
    pub fn operand(self) -> Option<u8>
        ensures { result ≡ operand_of self }
    {
        match self {
            LineFault::BadOperand(n) | LineFault::MissingOperand(n) | LineFault::ExtraOperand(n) =>
                { Some(n) }
            LineFault::TooLong
            | LineFault::BadByte
            | LineFault::UnknownVerb
            | LineFault::BadLabel
            | LineFault::BadPairs
            | LineFault::Memory => None,
        }
    }

    /// Appends the fault as a refusal names it: `L1`, or with the number of its operand `L5 2`. Memory is wanted only
    /// where there is no room for 42 bytes.
    pub fn put_code(self, text: &mut Vec<u8>) -> Result<(), AllocError>
        ensures ok { OnOk result (text.new.items ≡ text.old.items ++ code_of self) }
        ensures full { OnErr result (vec_capacity text.old < vec_len text.old + 42) }
        ensures len { OnOk result (vec_len text.new ≤ vec_len text.old + 42) }
        ensures capacity { vec_capacity text.old ≤ vec_capacity text.new }
    {
        text.push(b'L')?;
        put_decimal(text, u64::from(self.number()))?;
        put_operand(text, self.operand())
    }
}

fn put_operand(text: &mut Vec<u8>, operand: Option<u8>) -> Result<(), AllocError>
    ensures ok { OnOk result (text.new.items ≡ text.old.items ++ operand_part operand) }
    ensures full { OnErr result (vec_capacity text.old < vec_len text.old + 21) }
    ensures len { OnOk result (vec_len text.new ≤ vec_len text.old + 21) }
    ensures capacity { vec_capacity text.old ≤ vec_capacity text.new }
{
    if let Some(operand) = operand {
        text.push(b' ')?;
        put_decimal(text, u64::from(operand))?;
    }
    Ok(())
}

impl From<AllocError> for LineFault {
    ghost use Rattle.std.specs.Prelude.{◌≡◌};
    ghost use Rattle.gw_lines.specs.declared.fault.LineFault.TheVariants.{Memory};

    ghost from_gives = { λ _ e. e ≡ Memory };

    fn from(_error: AllocError) -> LineFault {
        LineFault::Memory
    }
}

impl<T: Drop> From<AllocFailed<T>> for LineFault {
    ghost use Rattle.std.specs.Prelude.{◌≡◌};
    ghost use Rattle.gw_lines.specs.declared.fault.LineFault.TheVariants.{Memory};

    ghost from_gives = { λ _ e. e ≡ Memory };

    fn from(_error: AllocFailed<T>) -> LineFault {
        LineFault::Memory
    }
}
