ghost use Rattle.std.specs.Prelude.{◌≡◌, IsSome, IfOk};
ghost use Rattle.gw_meaning.specs.Listing.{seed_at};
ghost use Rattle.gw_report.specs.Report.{seed_of, text_of};

use crate::blocks::put_blocks;
use crate::current::put_current;
use crate::facilities::put_facilities;
use crate::future::put_future;
use crate::head::put_head;
use crate::names::put_names;
use crate::queues::put_queues;
use crate::storages::put_storages;
use crate::tables::put_tables;
use crate::title::put_title;
use gw_meaning::Outcome;
use gw_model::Version;
use gw_state::State;
use std::alloc::{AllocError, Global};

// For how many bytes of text a report asks at once.
const TEXT: usize = 4096;

/// The standard report of the k-th START of a replication, in the state in which its run ended.
#[tactic(auto, unfolding(crate::specs::Report::text_of))]
pub fn print(
    alloc: Global,
    version: &Version,
    rep: u64,
    k: u64,
    state: &State,
    outcome: Outcome,
) -> Result<Vec<u8>, AllocError>
    requires { IsSome (seed_at version.now rep) }
    ensures { IfOk result (λ text. text.items ≡ text_of version.now rep k state.now outcome) }
{
    let mut text = Vec::with_capacity(alloc, TEXT)?;
    put_title(&mut text, rep, seed_of(version, rep), k, outcome)?;
    put_head(&mut text, version, state)?;
    put_names(&mut text, version)?;
    put_blocks(&mut text, version, state)?;
    put_facilities(&mut text, state, state.delays())?;
    put_queues(&mut text, state)?;
    put_storages(&mut text, version, state, state.delays())?;
    put_tables(&mut text, version, state)?;
    put_current(&mut text, version, state)?;
    put_future(&mut text, version, state)?;
    Ok(text)
}

// The seed of a replication of the version.
#[tactic(auto, unfolding(crate::specs::Report::seed_of))]
fn seed_of(version: &Version, rep: u64) -> u64
    requires { IsSome (seed_at version.now rep) }
    ensures { result ≡ seed_of version.now rep }
{
    version.seed(rep).unwrap()
}
