ghost use Rattle.std.specs.Prelude.{◌≡◌, ◌<◌, ◌≤◌, ◌+◌, ◌-◌, ◌^◌, false, List, [], length, max, take};
ghost use Rattle.std.specs.Prelude.{Some, slice_get, option_copied, IfSome, IfNone, IfOk, OnOk, OnErr};
ghost use Rattle.std.specs.List.{list_any};
ghost use Rattle.std.specs.Map.{keys_of};
ghost use Rattle.gw_names.specs.declared.key.Key.{Key};
ghost use Rattle.gw_names.specs.Keys.{key_eq};
ghost use Rattle.gw_meaning.specs.Tables.{value_of, with_value};
ghost use Rattle.gw_meaning.specs.Changes.{lined_up, some_let_in};
ghost use Rattle.gw_meaning.specs.Machine.{Machine, delay_at, waiting};
ghost use Rattle.gw_chains.specs.Chains.{delays_of, items_of, room_of, first_of, without_first, with_grant};
ghost use Rattle.gw_chains.specs.Chains.{HasRoomToLetAllIn};
ghost use Rattle.gw_chains.specs.Delays.{queues_of, chains_of};

use crate::chain::PriorityChain;
use crate::counts::Counts;
use gw_entities::KeySet;
use gw_meaning::Transaction;
use gw_names::Key;
use std::alloc::{AllocError, Global};
use std::marker::Model;

/// The delay chain of each facility and storage that somebody waited for, in the order of first waiting.
#[derive(Drop)]
pub struct DelayChains {
    keys: KeySet,
    // The chain of each key, but for the last ones while nobody waits on them: where copies share them, these are left
    // out.
    chains: Vec<PriorityChain>,
    // How many wait on all chains.
    count: usize,
}

impl Model for DelayChains {
    ghost use Rattle.std.specs.Prelude.{List};
    ghost use Rattle.gw_names.specs.declared.key.Key.{Key};
    ghost use Rattle.gw_meaning.specs.declared.transaction.Transaction.{Transaction};
    ghost use Rattle.gw_chains.specs.Chains.{Chain};
    ghost use Rattle.gw_chains.specs.Delays.{chains_of, AreKept};

    ghost Value = { List (Key × Chain Transaction) };

    ghost view = { λ d. chains_of d.keys.keys d.chains.items };

    ghost invariant = { λ d. AreKept d.keys.keys d.chains.items d.count };
}

impl DelayChains {
    /// Nobody has waited yet.
    pub fn new(alloc: Global) -> DelayChains
        ensures { result ≡ [] }
    {
        DelayChains {
            keys: KeySet::new(alloc),
            chains: Vec::new(alloc),
            count: 0,
        }
    }

    /// How many wait for a facility or a storage.
    pub fn len(&self, key: &Key) -> usize
        ensures { result ≡ length (delay_at (delays_of self.now) key.now) }
    {
        match self.chain(key) {
            Some(chain) => chain.len(),
            None => 0,
        }
    }

    /// How many wait on all chains.
    pub fn count(&self) -> usize
        ensures { result ≡ length (waiting (delays_of self.now)) }
    {
        self.count
    }

    // Where those lie who wait for a facility or a storage, if anybody does. While nobody waits at all, as mostly, no
    // key is looked up.
    #[inline(always)]
    fn place(&self, key: &Key) -> Option<usize>
        ensures there { IfSome result (λ i. slice_get (keys_of self.now) i ≡ Some key.now) }
        ensures some { IfSome result (λ _. 0 < length (delay_at (delays_of self.now) key.now)) }
        ensures none { IfNone result (delay_at (delays_of self.now) key.now ≡ []) }
    {
        if self.count == 0 {
            return None;
        }
        let index = self.keys.place(key)?;
        if self.chains.get(index)?.is_empty() {
            return None;
        }
        Some(index)
    }

    /// The chain of a facility or a storage, where somebody waits for it.
    #[inline(always)]
    pub fn chain(&self, key: &Key) -> Option<&PriorityChain>
        ensures { items_of (option_copied result) ≡ delay_at (delays_of self.now) key.now }
    {
        let index = self.place(key)?;
        Some(&self.chains[index])
    }

    /// The first of those who wait for a facility or a storage.
    #[inline(always)]
    #[tactic(auto, using(crate::proofs::DelayLaws::first_is))]
    pub fn first(&self, key: &Key) -> Option<&Transaction>
        ensures { option_copied result ≡ first_of (delay_at (delays_of self.now) key.now) }
    {
        match self.chain(key) {
            Some(chain) => chain.get(0),
            None => None,
        }
    }

    /// A transaction waits for a facility or a storage: after its equals, in front of the first of lower priority.
    /// Where memory is refused, nobody waits but those who did.
    #[inline(always)]
    pub fn line_up(&mut self, key: &Key, x: Transaction) -> Result<(), AllocError>
        ensures ok { OnOk result (delays_of self.new ≡
            with_value (delays_of self.old) key.now (lined_up x (delay_at (delays_of self.old) key.now))) }
        ensures err { OnErr result (delays_of self.new ≡ delays_of self.old) }
    {
        if self.count == usize::MAX {
            return Err(AllocError);
        }
        let Some(index) = self.keys.place(key) else {
            return self.line_up_first(key, x);
        };
        fill(&mut self.chains, self.keys.len())?;
        let chain = &mut self.chains[index];
        chain.reserve(1)?;
        chain.line_up(x);
        self.count += 1;
        Ok(())
    }

    // The same, where nobody has waited for the facility or the storage.
    #[inline(never)]
    fn line_up_first(&mut self, key: &Key, x: Transaction) -> Result<(), AllocError>
        requires none { list_any (key_eq key.now) (keys_of self.old) ≡ false }
        requires count { length (waiting (delays_of self.old)) < 2 ^ 64 - 1 }
        ensures ok { OnOk result (delays_of self.new ≡
            with_value (delays_of self.old) key.now (lined_up x (delay_at (delays_of self.old) key.now))) }
        ensures err { OnErr result (delays_of self.new ≡ delays_of self.old) }
    {
        let own = key.clone()?;
        self.keys.reserve()?;
        fill(&mut self.chains, self.keys.len())?;
        self.chains.reserve(1)?;
        let mut chain = PriorityChain::new(*self.chains.allocator());
        chain.reserve(1)?;
        chain.line_up(x);
        self.keys.insert(own);
        self.chains.push_reserved(chain);
        self.count += 1;
        Ok(())
    }

    /// The first of those who wait for a facility goes.
    #[inline(always)]
    pub fn take_first(&mut self, key: &Key) -> Option<Transaction>
        ensures first { result ≡ first_of (delay_at (delays_of self.old) key.now) }
        ensures delays { delays_of self.new ≡
            without_first (delays_of self.old) key.now (delay_at (delays_of self.old) key.now) }
    {
        let index = self.place(key)?;
        let x = self.chains[index].take_first()?;
        self.count -= 1;
        Some(x)
    }

    /// Makes room for so many to go who wait for a storage. They stay there.
    pub fn reserve(&mut self, key: &Key, count: usize) -> Result<(), AllocError>
        requires { count ≤ length (delay_at (delays_of self.old) key.now) }
        ensures ok { OnOk result (count ≤ room_of (value_of self.new key.now)) }
        ensures delays { delays_of self.new ≡ delays_of self.old }
    {
        match self.place(key) {
            Some(index) => self.chains[index].reserve(count),
            None => Ok(()),
        }
    }

    /// Of those who wait for a storage each with a grant is let in.
    #[inline(always)]
    pub fn let_in_some(
        &mut self,
        key: &Key,
        grants: &[Option<u64>],
        current: &mut PriorityChain,
        counts: &mut Counts,
    )
        requires room { HasRoomToLetAllIn (with_grant grants.now (delay_at (delays_of self.old) key.now))
            current.old.room counts.old.limit }
        requires going { length (with_grant grants.now (delay_at (delays_of self.old) key.now)) ≤
            room_of (value_of self.old key.now) }
        ensures let_in { (s : Machine) →
            record s { delays = delays_of self.new; current = current.new.items; counts = counts.new.entries } ≡
            some_let_in key.now grants.now [] (delay_at (delays_of self.old) key.now) (record s {
              delays = delays_of self.old;
              current = current.old.items;
              counts = counts.old.entries;
            }) }
        ensures room { current.old.room ≤ current.new.room +
            length (with_grant grants.now (delay_at (delays_of self.old) key.now)) }
    {
        let Some(index) = self.place(key) else {
            return;
        };
        let chain = &mut self.chains[index];
        let before = chain.len();
        chain.let_in_some(grants, current, counts);
        let gone = before - chain.len();
        self.count -= gone;
    }

    /// Copies share from now on what it holds now. It holds the same, also where memory is refused.
    pub fn share(&mut self) -> Result<(), AllocError>
        ensures { delays_of self.new ≡ delays_of self.old }
    {
        self.keys.share()?;
        let count = in_use(&self.chains);
        self.chains.truncate(count);
        share_all(&mut self.chains)
    }

    /// The same chains.
    pub fn copy(&self) -> Result<DelayChains, AllocError>
        ensures { IfOk result (λ d. delays_of d ≡ delays_of self.now) }
    {
        let keys = self.keys.copy()?;
        Ok(DelayChains {
            keys,
            chains: copy_chains(*self.chains.allocator(), &self.chains)?,
            count: self.count,
        })
    }
}

// There are so many of these from now on: nobody waits on further ones.
fn fill(chains: &mut Vec<PriorityChain>, count: usize) -> Result<(), AllocError>
    ensures ok { OnOk result (count ≤ length chains.new.items) }
    ensures long { length chains.new.items ≤ max (length chains.old.items) count }
    ensures delays { (keys : List Key) →
        delays_of (chains_of keys chains.new.items) ≡ delays_of (chains_of keys chains.old.items) }
{
    let alloc = *chains.allocator();
    while chains.len() < count {
        chains.push(PriorityChain::new(alloc))?;
    }
    Ok(())
}

// How many of these there are up to the last on which somebody waits.
fn in_use(chains: &[PriorityChain]) -> usize
    ensures within { result ≤ length chains.now }
    ensures delays { (keys : List Key) →
        delays_of (chains_of keys (take result chains.now)) ≡ delays_of (chains_of keys chains.now) }
{
    let mut count = chains.len();
    while count > 0 {
        if chains[count - 1].is_empty() {
            count -= 1;
        } else {
            return count;
        }
    }
    0
}

// Copies share from now on what these hold.
fn share_all(chains: &mut Vec<PriorityChain>) -> Result<(), AllocError>
    ensures { queues_of chains.new.items ≡ queues_of chains.old.items }
{
    for index in 0..chains.len() {
        chains[index].share()?;
    }
    Ok(())
}

// Chains of the same transactions.
fn copy_chains(alloc: Global, chains: &[PriorityChain]) -> Result<Vec<PriorityChain>, AllocError>
    ensures { IfOk result (λ cs. queues_of cs.items ≡ queues_of chains.now) }
{
    let mut copies = Vec::with_capacity(alloc, chains.len())?;
    for chain in chains {
        copies.push(chain.copy()?)?;
    }
    Ok(copies)
}
