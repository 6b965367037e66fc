ghost use Rattle.std.specs.Prelude.{◌≡◌};
ghost use Rattle.gw_edit.specs.Faults.{number_of, of_line, of_model};

use gw_lines::LineFault;
use gw_model::ModelFault;
use std::alloc::{AllocError, AllocFailed};
use thiserror::Error;

/// Why an edit is refused. The numbers E1 to E8 are the product's own. The order is E8, E1, E4, E5, E6, E2, E3:
/// the first of these that holds. E7 may come in place of any.
#[derive(Clone, Copy, Debug, PartialEq, Eq, Error)]
pub enum EditFault {
    /// E1: no statement stands or may stand at this place.
    #[error("there is no such place")]
    NoSuchPlace,
    /// E2: the text is no statement.
    #[error("{0}")]
    BadStatement(LineFault),
    /// E3: the edited version would have a fault.
    #[error("{0}")]
    BadModel(ModelFault),
    /// E4: there is no replication with this number.
    #[error("there is no such replication")]
    NoSuchReplication,
    /// E5: there is a replication with this number.
    #[error("the replication is there already")]
    ReplicationTwice,
    /// E6: there is no storage with this name.
    #[error("there is no such storage")]
    NoSuchStorage,
    /// E7: out of memory.
    #[error("out of memory")]
    Memory,
    /// E8: no further edit is taken.
    #[error("there are too many edits")]
    HistoryFull,
}

impl EditFault {
    /// The fault's number, 1 to 8, which a report prints after an E.
    pub fn number(self) -> u8
        ensures { result ≡ number_of self }
    {
        match self {
            EditFault::NoSuchPlace => 1,
            EditFault::BadStatement(_) => 2,
            EditFault::BadModel(_) => 3,
            EditFault::NoSuchReplication => 4,
            EditFault::ReplicationTwice => 5,
            EditFault::NoSuchStorage => 6,
            EditFault::Memory => 7,
            EditFault::HistoryFull => 8,
        }
    }
}

/// The refusal of an edit whose text has this fault; out of memory is the edit's own.
pub fn of_line(fault: LineFault) -> EditFault
    ensures { result ≡ of_line fault }
{
    match fault {
        LineFault::Memory => EditFault::Memory,
        fault => EditFault::BadStatement(fault),
    }
}

/// The refusal of an edit whose version would have this fault; out of memory is the edit's own.
pub fn of_model(fault: ModelFault) -> EditFault
    ensures { result ≡ of_model fault }
{
    match fault {
        ModelFault::Memory => EditFault::Memory,
        fault => EditFault::BadModel(fault),
    }
}

impl From<AllocError> for EditFault {
    ghost use Rattle.std.specs.Prelude.{◌≡◌};
    ghost use Rattle.gw_edit.specs.declared.fault.EditFault.TheVariants.{Memory};

    ghost from_gives = { λ _ e. e ≡ Memory };

    fn from(_error: AllocError) -> EditFault {
        EditFault::Memory
    }
}

impl<T: Drop> From<AllocFailed<T>> for EditFault {
    ghost use Rattle.std.specs.Prelude.{◌≡◌};
    ghost use Rattle.gw_edit.specs.declared.fault.EditFault.TheVariants.{Memory};

    ghost from_gives = { λ _ e. e ≡ Memory };

    fn from(_error: AllocFailed<T>) -> EditFault {
        EditFault::Memory
    }
}
