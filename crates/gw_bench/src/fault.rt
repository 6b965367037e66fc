ghost use Rattle.std.specs.Prelude.{◌≡◌};
ghost use Rattle.gw_bench.specs.Faults.{refusal_of};

use gw_edit::EditFault;
use std::alloc::AllocError;
use thiserror::Error;

/// Why an edit was not put into the row. The numbers B1 to B3 are the product's own.
#[derive(Clone, Copy, Debug, PartialEq, Eq, Error)]
pub enum BenchFault {
    /// B1: the front that was seen is as long as the row, 4,096 edits.
    #[error("there are too many edits")]
    HistoryFull,
    /// B2: the version of the front that was seen, of so many edits, refuses the edit.
    #[error("{0}")]
    Refused(EditFault, u64),
    /// B3: out of memory.
    #[error("out of memory")]
    Memory,
}

impl From<AllocError> for BenchFault {
    fn from(_: AllocError) -> BenchFault {
        BenchFault::Memory
    }
}

// The fault that a refusal of an edit is, of a front of so many edits; out of memory is the bench's own.
pub fn refusal_of(fault: EditFault, edits: u64) -> BenchFault
    ensures { result ≡ refusal_of fault edits }
{
    match fault {
        EditFault::Memory => BenchFault::Memory,
        fault => BenchFault::Refused(fault, edits),
    }
}
