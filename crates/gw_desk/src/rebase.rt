// What an edit leaves of the recorded runs.
ghost use Rattle.std.specs.Prelude.{◌≡◌, ◌+◌, ◌<◌, ◌≤◌, length, vec_len, vec_capacity, filter, is_some};
ghost use Rattle.gw_meaning.specs.Listing.{Listing, seed_at};
ghost use Rattle.gw_meaning.specs.declared.edit.Edit.{Edit};
ghost use Rattle.gw_touch.specs.Touching.{touching_of};
ghost use Rattle.gw_desk.specs.declared.recording.Recording.{Recording};
ghost use Rattle.gw_desk.specs.Book.{run_in};
ghost use Rattle.gw_desk.specs.Rebasing.{AreRebased, with_run, with_missing};

use crate::recording::{Recording, run_of};
use gw_edit::{Touch, rebase};
use gw_meaning::Replication;
use gw_model::Version;
use gw_record::Recorded;
use std::alloc::Global;

// The recorded runs after an edit of a version, by what the edit touches.
pub(crate) fn rebase_all(runs: &mut Vec<Recording>, old: &Version, touch: &Touch)
    ensures rebased { (e : Edit) (u : Listing) → touch.now ≡ touching_of old.now e u →
        AreRebased old.now e u runs.old.items runs.new.items }
    ensures len { vec_len runs.new ≡ vec_len runs.old }
    ensures room { vec_capacity runs.new ≡ vec_capacity runs.old }
{
    for recording in runs.iter_mut() {
        // A run of a desk starts at 0, and of such a run something is always left.
        rebase(&mut recording.run, old, touch, recording.number);
    }
}

// Runs of no steps for the replications that have none.
pub(crate) fn add_missing(
    runs: &mut Vec<Recording>,
    alloc: Global,
    replications: &[Replication],
    every: u64,
)
    requires some { 1 ≤ every }
    requires room { vec_len runs.old + length replications.now ≤ vec_capacity runs.old }
    ensures { runs.new.items ≡ with_missing every replications.now runs.old.items }
{
    for replication in replications {
        add_if_missing(runs, alloc, replication.number, every);
    }
}

// A run of no steps for a replication, if it has none.
fn add_if_missing(runs: &mut Vec<Recording>, alloc: Global, number: u64, every: u64)
    requires some { 1 ≤ every }
    requires room { vec_len runs.old < vec_capacity runs.old }
    ensures runs { runs.new.items ≡ with_run every number (run_in runs.old.items number) runs.old.items }
    ensures len { vec_len runs.new ≤ vec_len runs.old + 1 }
    ensures room { vec_capacity runs.old ≤ vec_capacity runs.new }
{
    if run_of(runs.as_slice(), number).is_none() {
        let run = Recorded::new(alloc, every);
        match runs.push(Recording { number, run }) {
            Ok(()) => (),
            Err(_) => unreachable!(),
        }
    }
}

// Those runs alone whose replications a version has.
pub(crate) fn keep_those_of(runs: &mut Vec<Recording>, version: &Version)
    ensures { runs.new.items ≡ filter (λ (r : Recording). is_some (seed_at version.now r.number)) runs.old.items }
{
    runs.retain(|recording| version.seed(recording.number).is_some());
}
