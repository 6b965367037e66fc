ghost use Rattle.std.specs.Prelude.{◌≡◌};
ghost use Rattle.gw_meaning.specs.Machine.{zero_state};
ghost use Rattle.gw_state.specs.States.{machine_of};

use crate::clocks::Clocks;
use crate::entities::Entities;
use crate::progress::Progress;
use gw_chains::{Counts, DelayChains, FutureChain, PriorityChain, UserChains};
use gw_entities::Parameters;
use gw_meaning::Transaction;
use gw_retry::Retry;
use gw_streams::Streams;
use std::alloc::Global;

// The parts of a state. What a state hides is seen here: for how much there is room on its chains and among its counts.
#[derive(Drop)]
pub struct Parts {
    pub clocks: Clocks,
    pub progress: Progress,
    pub streams: Streams,
    pub next: u64,
    pub active: Option<Transaction>,
    pub current: PriorityChain,
    pub future: FutureChain,
    pub delays: DelayChains,
    pub retry: Retry,
    pub linked: UserChains,
    pub counts: Counts,
    pub entities: Entities,
    pub parameters: Parameters,
}

impl Parts {
    // Those of the state before the first step.
    pub fn zero(alloc: Global) -> Parts
        ensures { machine_of result ≡ zero_state }
    {
        Parts {
            clocks: Clocks::zero(),
            progress: Progress::zero(),
            streams: Streams::new(),
            next: 1,
            active: None,
            current: PriorityChain::new(alloc),
            future: FutureChain::new(alloc),
            delays: DelayChains::new(alloc),
            retry: Retry::new(alloc),
            linked: UserChains::new(alloc),
            counts: Counts::new(alloc),
            entities: Entities::new(alloc),
            parameters: Parameters::new(alloc),
        }
    }
}
