use gw_io::ReadFault;
use gw_lines::FaultyLine;
use gw_model::ModelFault;
use thiserror::Error;

/// How a session came to its end.
#[derive(Clone, Copy)]
pub enum Over {
    /// By the line `quit`.
    Quit,
    /// By the end of the input.
    InputEnd,
}

/// Why a session stopped. F1 and F2 come before anything is written; after F3 to F6 what was written stays.
#[derive(Debug, Drop, Error)]
pub enum Fault {
    /// F1: a line of the model is faulty.
    #[error("a line of the model is faulty")]
    Line(FaultyLine),
    /// F2: the model is no version.
    #[error("the model is refused: {0}")]
    Model(ModelFault),
    /// F3: the reader failed.
    #[error("the input could not be read")]
    Read,
    /// F4: the writer failed.
    #[error("the output could not be written")]
    Write,
    /// F5: 16,777,216 calls of read were made, and another was wanted.
    #[error("the input is too long")]
    ReadLimit,
    /// F6: a growth was refused.
    #[error("out of memory")]
    Memory,
}

impl From<ReadFault> for Fault {
    ghost use Rattle.std.specs.Prelude.{◌≡◌};
    ghost use Rattle.gw_script.specs.Turns.{stopped_by};

    ghost from_gives = { λ fault e. e ≡ stopped_by fault };

    fn from(fault: ReadFault) -> Fault {
        match fault {
            ReadFault::Read => Fault::Read,
            ReadFault::Limit => Fault::ReadLimit,
            ReadFault::Memory => Fault::Memory,
        }
    }
}
