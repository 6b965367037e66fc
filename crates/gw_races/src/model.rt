use gw_lines::read_model;
use gw_meaning::Replication;
use gw_model::Version;
use std::alloc::Global;

/// The version with the statements of a model, a step limit and replications 1 to `count`, each of which has its number as
/// its seed. None where it has a fault or memory is refused.
pub(crate) fn version(alloc: Global, model: &str, limit: u64, count: u64) -> Option<Version> {
    let statements = read_model(alloc, model.as_bytes()).ok()?;
    let mut replications = Vec::new(alloc);
    for number in 1..=count {
        replications
            .push(Replication {
                number,
                seed: number,
            })
            .ok()?;
    }
    Version::new(alloc, statements, 1_000_000_000, replications, limit).ok()
}
