ghost use Rattle.std.specs.Prelude.{◌≡◌, ◌↔◌, IfOk, IsTrue};

use gw_expr::Row;
use gw_names::Name;
use std::alloc::{AllocError, Global};

/// An edit of a version. Places count the statements from 1. An edit after which the version would have a
/// fault is E3.
#[derive(Drop, PartialEq, Eq)]
pub enum Edit {
    /// The statement that `text` spells is inserted at `place`, 1 to the number of statements and one; else it is
    /// E1. A text that spells none is E2.
    Insert { place: u64, text: Row<u8> },
    /// The statement at `place`, 1 to the number of statements, is deleted; else it is E1.
    Delete { place: u64 },
    /// The statement that `text` spells takes the place of another, and its id. The refusals are those of
    /// an insert.
    Change { place: u64, text: Row<u8> },
    /// The storage `name` has `amount` units, 1 to 1,000,000,000; else it is E2, as a bad first operand. A name that no
    /// storage has is E6.
    Capacity { name: Name, amount: u64 },
    /// The replication has another seed, 1 to 2,147,483,646. One that is not there is E4.
    Seed { replication: u64, seed: u64 },
    /// A replication, 1 to 1,000,000,000, is added after the others, of which at most 32 may be. One that is
    /// there is E5.
    Replicate { replication: u64, seed: u64 },
    /// The replication is dropped. One that is not there is E4.
    Drop { replication: u64 },
    /// The horizon is another one, 1 to 1,000,000,000,000.
    Horizon { time: u64 },
}

impl Edit {
    /// Whether the two are one edit: of one kind, with the same place, text, name and numbers.
    pub fn is(&self, other: &Edit) -> bool
        ensures { IsTrue result ↔ (self.now ≡ other.now) }
    {
        self == other
    }

    /// An equal edit.
    pub fn copy(&self, alloc: Global) -> Result<Edit, AllocError>
        ensures { IfOk result (λ e. e ≡ self.now) }
    {
        match self {
            Edit::Insert { place, text } => Ok(Edit::Insert {
                place: *place,
                text: copy_text(alloc, text)?,
            }),
            Edit::Delete { place } => Ok(Edit::Delete { place: *place }),
            Edit::Change { place, text } => Ok(Edit::Change {
                place: *place,
                text: copy_text(alloc, text)?,
            }),
            Edit::Capacity { name, amount } => Ok(Edit::Capacity {
                name: name.clone()?,
                amount: *amount,
            }),
            Edit::Seed { replication, seed } => Ok(Edit::Seed {
                replication: *replication,
                seed: *seed,
            }),
            Edit::Replicate { replication, seed } => Ok(Edit::Replicate {
                replication: *replication,
                seed: *seed,
            }),
            Edit::Drop { replication } => Ok(Edit::Drop {
                replication: *replication,
            }),
            Edit::Horizon { time } => Ok(Edit::Horizon { time: *time }),
        }
    }
}

fn copy_text(alloc: Global, text: &Row<u8>) -> Result<Row<u8>, AllocError>
    ensures { IfOk result (λ t. t ≡ text.now) }
{
    Ok(Row::from_vec(Vec::from_slice(alloc, text.as_slice())?))
}
