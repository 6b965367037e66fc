// The recorded runs of replications, by the replications' numbers.
ghost use Rattle.std.specs.Prelude.{◌≡◌, ◌≤◌, ◌<◌, IfOk, IfSome, length, option_copied};
ghost use Rattle.gw_desk.specs.Book.{run_in, place_in, blank_runs};

use gw_meaning::Replication;
use gw_record::Recorded;
use std::alloc::{AllocError, Global};

/// The recorded run of a replication.
#[derive(Drop)]
pub struct Recording {
    pub number: u64,
    pub run: Recorded,
}

// Runs of no steps of these replications.
pub fn blank_runs(
    alloc: Global,
    replications: &[Replication],
    every: u64,
) -> Result<Vec<Recording>, AllocError>
    requires { 1 ≤ every }
    ensures { IfOk result (λ runs. runs.items ≡ blank_runs every replications.now) }
{
    let mut runs = Vec::new(alloc);
    for replication in replications {
        runs.push(Recording {
            number: replication.number,
            run: Recorded::new(alloc, every),
        })?;
    }
    Ok(runs)
}

// The recorded run of the replication with this number.
pub(crate) fn run_of(runs: &[Recording], number: u64) -> Option<&Recorded>
    ensures { option_copied result ≡ run_in runs.now number }
{
    for recording in runs {
        if recording.number == number {
            return Some(&recording.run);
        }
    }
    None
}

// The place of the recorded run of the replication with this number.
pub fn place_of(runs: &[Recording], number: u64) -> Option<usize>
    ensures place { result ≡ place_in runs.now number }
    ensures within { IfSome result (λ i. i < length runs.now) }
{
    runs.iter().position(|recording| recording.number == number)
}
