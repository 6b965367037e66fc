ghost use Rattle.std.specs.Prelude.{◌≡◌};
ghost use Rattle.gw_model.specs.Faults.{number_of};

use std::alloc::{AllocError, AllocFailed};
use thiserror::Error;

/// The first fault of a model. The numbers M1 to M8 are the product's own. The order is M5, M6, M7, M1, M2,
/// M3, M4: the first of these that holds. M8 may come in place of any.
#[derive(Clone, Copy, Debug, PartialEq, Eq, Error)]
pub enum ModelFault {
    /// M5: more than 2,000 statements, or more than 32 replications.
    #[error("the model has too many statements or replications")]
    TooMany,
    /// M6: a seed outside 1 to 2,147,483,646, a replication number outside 1 to 1,000,000,000, or a
    /// replication number given twice.
    #[error("a seed or a replication number is out of range or given twice")]
    BadSeed,
    /// M7: a horizon outside 1 to 1,000,000,000,000, or a step limit outside 1 to 1,000,000.
    #[error("the horizon or the step limit is out of range")]
    BadHorizon,
    /// M1: two blocks or definitions with the same label.
    #[error("a label is given twice")]
    LabelTwice,
    /// M2: an operand of a block is a label that no block has.
    #[error("a label is named that no block has")]
    NoSuchLabel,
    /// M3: an operand of a block names a definition that is not there.
    #[error("a definition is named that is not there")]
    NoSuchDefinition,
    /// M4: an operand of a block names a definition that is no storage's, but an EQU's.
    #[error("a storage is named whose name an EQU defines")]
    EquNamedDefinition,
    /// M8: out of memory.
    #[error("out of memory")]
    Memory,
}

impl ModelFault {
    /// The fault's number, 1 to 8, which a report prints after an M.
    pub fn number(self) -> u8
        ensures { result ≡ number_of self }
    {
        match self {
            ModelFault::TooMany => 5,
            ModelFault::BadSeed => 6,
            ModelFault::BadHorizon => 7,
            ModelFault::LabelTwice => 1,
            ModelFault::NoSuchLabel => 2,
            ModelFault::NoSuchDefinition => 3,
            ModelFault::EquNamedDefinition => 4,
            ModelFault::Memory => 8,
        }
    }
}

impl From<AllocError> for ModelFault {
    ghost use Rattle.std.specs.Prelude.{◌≡◌};
    ghost use Rattle.gw_model.specs.declared.fault.ModelFault.TheVariants.{Memory};

    ghost from_gives = { λ _ e. e ≡ Memory };

    fn from(_error: AllocError) -> ModelFault {
        ModelFault::Memory
    }
}

impl<T: Drop> From<AllocFailed<T>> for ModelFault {
    ghost use Rattle.std.specs.Prelude.{◌≡◌};
    ghost use Rattle.gw_model.specs.declared.fault.ModelFault.TheVariants.{Memory};

    ghost from_gives = { λ _ e. e ≡ Memory };

    fn from(_error: AllocFailed<T>) -> ModelFault {
        ModelFault::Memory
    }
}
