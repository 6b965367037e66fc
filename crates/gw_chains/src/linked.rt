ghost use Rattle.std.specs.Prelude.{◌≡◌, ◌+◌, ◌-◌, ◌<◌, ◌≤◌, ◌^◌, unwrap_or, [], length, map, option_copied, None, IfOk, OnOk, OnErr};
ghost use Rattle.gw_meaning.specs.Tables.{value_of, with_value, IsPlace};
ghost use Rattle.gw_meaning.specs.Changes.{linked_to, some_unlinked, user_chain_anew};
ghost use Rattle.gw_meaning.specs.Machine.{Machine, members_of, no_chain, user_chain_at, waiting};

use crate::chain::PriorityChain;
use crate::user_chain::UserChain;
use gw_entities::KeySet;
use gw_expr::Discipline;
use gw_meaning::{Destination, Transaction};
use gw_names::Key;
use gw_shared::SharedValues;
use std::alloc::{AllocError, Global};
use std::marker::Model;

/// The user chains to which somebody was linked, in the order of first linking.
#[derive(Drop)]
pub struct UserChains {
    keys: KeySet,
    // The chain of each key.
    chains: SharedValues<UserChain>,
    // How many are on all of them.
    count: usize,
}

impl Model for UserChains {
    ghost use Rattle.std.specs.Prelude.{List};
    ghost use Rattle.std.specs.List.{zip};
    ghost use Rattle.gw_names.specs.declared.key.Key.{Key};
    ghost use Rattle.gw_meaning.specs.Machine.{UserChain};
    ghost use Rattle.gw_chains.specs.UserChains.{AreLinked};

    ghost Value = { List (Key × UserChain) };

    ghost view = { λ u. zip u.keys.keys u.chains };

    ghost invariant = { λ u. AreLinked u.keys.keys u.chains u.count };
}

impl UserChains {
    /// Nobody was linked yet.
    pub fn new(alloc: Global) -> UserChains
        ensures { result ≡ [] }
    {
        UserChains {
            keys: KeySet::new(alloc),
            chains: SharedValues::new(alloc),
            count: 0,
        }
    }

    /// How many are on a user chain.
    pub fn len(&self, key: &Key) -> usize
        ensures { result ≡ length (user_chain_at self.now key.now).members }
    {
        match self.chain(key) {
            Some(chain) => chain.len(),
            None => 0,
        }
    }

    /// How many were linked to a user chain.
    pub fn entries(&self, key: &Key) -> u64
        ensures { result ≡ (user_chain_at self.now key.now).entries }
    {
        match self.chain(key) {
            Some(chain) => chain.entries(),
            None => 0,
        }
    }

    /// How many are on all user chains.
    pub fn count(&self) -> usize
        ensures { result ≡ length (waiting (members_of self.now)) }
    {
        self.count
    }

    // Where a chain lies, if somebody was linked to it.
    fn place(&self, key: &Key) -> Option<usize>
        ensures { IsPlace self.now key.now result }
    {
        self.keys.place(key)
    }

    fn chain(&self, key: &Key) -> Option<&UserChain>
        ensures { unwrap_or (option_copied result) no_chain ≡ user_chain_at self.now key.now }
    {
        let index = self.place(key)?;
        Some(self.chains.at(index))
    }

    /// A transaction is linked to a user chain: to the back or to the front. Where memory is refused, it is not.
    pub fn link(
        &mut self,
        key: &Key,
        x: Transaction,
        discipline: Discipline,
    ) -> Result<(), AllocError>
        ensures ok { OnOk result (self.new ≡
            with_value self.old key.now (linked_to discipline x (user_chain_at self.old key.now))) }
        ensures err { OnErr result (self.new ≡ self.old) }
    {
        if self.count == usize::MAX {
            return Err(AllocError);
        }
        let Some(index) = self.place(key) else {
            return self.link_first(key, x, discipline);
        };
        self.chains.at_mut(index)?.link(x, discipline)?;
        self.count += 1;
        Ok(())
    }

    // The same, where nobody was linked to the chain.
    #[cold]
    fn link_first(
        &mut self,
        key: &Key,
        x: Transaction,
        discipline: Discipline,
    ) -> Result<(), AllocError>
        requires none { value_of self.old key.now ≡ None }
        requires count { length (waiting (members_of self.old)) < 2 ^ 64 - 1 }
        ensures ok { OnOk result (self.new ≡
            with_value self.old key.now (linked_to discipline x (user_chain_at self.old key.now))) }
        ensures err { OnErr result (self.new ≡ self.old) }
    {
        let own = key.clone()?;
        self.keys.reserve()?;
        let mut chain = UserChain::new(self.chains.allocator());
        chain.link(x, discipline)?;
        self.chains.push(chain)?;
        self.keys.insert(own);
        self.count += 1;
        Ok(())
    }

    /// So many from the front of a user chain go to a block, one by one: each comes onto the current chain after its
    /// equals. Where memory is refused, nobody goes.
    pub fn unlink(
        &mut self,
        key: &Key,
        count: u64,
        to: Destination,
        current: &mut PriorityChain,
    ) -> Result<(), AllocError>
        requires { count ≤ current.old.room }
        ensures ok { OnOk result ((s : Machine) →
            record s { linked = self.new; current = current.new.items } ≡
            some_unlinked count key.now to (user_chain_at self.old key.now).members
            (record s { linked = self.old; current = current.old.items })) }
        ensures err { OnErr result ((self.new ≡ self.old) × (current.new.items ≡ current.old.items)) }
        ensures room { current.old.room ≤ current.new.room + count }
    {
        let Some(index) = self.place(key) else {
            return Ok(());
        };
        let chain = self.chains.at_mut(index)?;
        let before = chain.len();
        chain.unlink(count, to, current);
        let gone = before - chain.len();
        self.count -= gone;
        Ok(())
    }

    /// Equal chains, but that they count no transaction as linked, as after a RESET. Each member stays where it is.
    pub fn anew(&self) -> Result<UserChains, AllocError>
        ensures { IfOk result (λ u. u ≡ map (λ c. (c.0, user_chain_anew c.1)) self.now) }
    {
        let keys = self.keys.copy()?;
        Ok(UserChains {
            keys,
            chains: all_anew(&self.chains)?,
            count: self.count,
        })
    }

    /// Copies share from now on who is on them now. It holds the same, also where memory is refused.
    pub fn share(&mut self) -> Result<(), AllocError>
        ensures { self.new ≡ self.old }
    {
        self.keys.share()?;
        self.chains.share()
    }

    /// The same chains.
    pub fn copy(&self) -> Result<UserChains, AllocError>
        ensures { IfOk result (λ u. u ≡ self.now) }
    {
        let keys = self.keys.copy()?;
        Ok(UserChains {
            keys,
            chains: self.chains.copy()?,
            count: self.count,
        })
    }
}

// Equal chains, but that they count no transaction as linked.
fn all_anew(chains: &SharedValues<UserChain>) -> Result<SharedValues<UserChain>, AllocError>
    ensures { IfOk result (λ cs. cs ≡ map user_chain_anew chains.now) }
{
    let mut all = SharedValues::new(chains.allocator());
    for index in 0..chains.len() {
        all.push(chains.at(index).anew()?)?;
    }
    Ok(all)
}
