ghost use Rattle.std.specs.Prelude.{◌≡◌, ◌++◌, ◌∷◌, [], IfOk};
ghost use Rattle.gw_edit.specs.Applied.{reseeded, with_seed, without_number};

use gw_meaning::Replication;
use gw_model::Version;
use std::alloc::{AllocError, Global};

/// The replications, where the one with this number has this seed.
pub fn reseeded(
    alloc: Global,
    version: &Version,
    number: u64,
    seed: u64,
) -> Result<Vec<Replication>, AllocError>
    ensures { IfOk result (λ rs. rs.items ≡ reseeded number seed version.now.replications) }
{
    version
        .replications()
        .iter()
        .map(|r| with_seed(r, number, seed))
        .collect(alloc)
}

/// The replications and one more after them.
pub(crate) fn with_replication(
    alloc: Global,
    version: &Version,
    number: u64,
    seed: u64,
) -> Result<Vec<Replication>, AllocError>
    ensures { IfOk result (λ rs. rs.items ≡ version.now.replications ++ record { number = number; seed = seed } ∷ []) }
{
    let mut made = Vec::from_slice(alloc, version.replications())?;
    made.push(Replication { number, seed })?;
    Ok(made)
}

/// The replications without the one with this number.
pub fn without_number(
    alloc: Global,
    version: &Version,
    number: u64,
) -> Result<Vec<Replication>, AllocError>
    ensures { IfOk result (λ rs. rs.items ≡ without_number number version.now.replications) }
{
    version
        .replications()
        .iter()
        .copied()
        .filter(|r| r.number != number)
        .collect(alloc)
}

fn with_seed(replication: &Replication, number: u64, seed: u64) -> Replication
    ensures { result ≡ with_seed number seed replication.now }
{
    if replication.number == number {
        Replication { number, seed }
    } else {
        *replication
    }
}
