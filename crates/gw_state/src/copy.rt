// A copy of the parts of a state. The parts that own memory are copied in two groups: what is proved of
// a function grows fast with the exits at which it lets go of copies.
ghost use Rattle.std.specs.Prelude.{◌≡◌, IfOk};
ghost use Rattle.gw_state.specs.Copies.{ChainsOf, KeptOf};
ghost use Rattle.gw_state.specs.States.{machine_of};

use crate::entities::Entities;
use crate::parts::Parts;
use gw_chains::{Counts, DelayChains, FutureChain, PriorityChain, UserChains};
use gw_entities::Parameters;
use gw_retry::Retry;
use std::alloc::AllocError;

// The chains of a state.
#[derive(Drop)]
pub struct Chains {
    pub current: PriorityChain,
    pub future: FutureChain,
    pub delays: DelayChains,
    pub retry: Retry,
    pub linked: UserChains,
}

// What a state keeps of blocks, of entities and of transactions.
#[derive(Drop)]
pub struct Kept {
    pub counts: Counts,
    pub parameters: Parameters,
    pub entities: Entities,
}

impl Parts {
    // Makes copies of them cheap: from now on they share what did not change of the chains, the entities and the
    // parameters. The state is the same after it, also where memory is refused.
    pub fn share(&mut self) -> Result<(), AllocError>
        ensures { machine_of self.new ≡ machine_of self.old }
    {
        self.current.share()?;
        self.delays.share()?;
        self.retry.share()?;
        self.linked.share()?;
        self.entities.share()?;
        self.parameters.share()
    }

    // Those of an equal state.
    pub fn copy(&self) -> Result<Parts, AllocError>
        ensures { IfOk result (λ p. machine_of p ≡ machine_of self.now) }
    {
        let chains = self.copy_chains()?;
        let kept = self.copy_kept()?;
        Ok(Parts {
            clocks: self.clocks,
            progress: self.progress,
            streams: self.streams,
            next: self.next,
            active: self.active,
            current: chains.current,
            future: chains.future,
            delays: chains.delays,
            retry: chains.retry,
            linked: chains.linked,
            counts: kept.counts,
            entities: kept.entities,
            parameters: kept.parameters,
        })
    }

    fn copy_chains(&self) -> Result<Chains, AllocError>
        ensures { IfOk result (ChainsOf (machine_of self.now)) }
    {
        let current = self.current.copy()?;
        let future = self.future.copy()?;
        let delays = self.delays.copy()?;
        let retry = self.retry.copy()?;
        Ok(Chains {
            current,
            future,
            delays,
            retry,
            linked: self.linked.copy()?,
        })
    }

    fn copy_kept(&self) -> Result<Kept, AllocError>
        ensures { IfOk result (KeptOf (machine_of self.now)) }
    {
        let counts = self.counts.copy()?;
        let parameters = self.parameters.copy()?;
        Ok(Kept {
            counts,
            parameters,
            entities: self.entities.copy()?,
        })
    }
}
