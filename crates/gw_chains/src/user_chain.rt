ghost use Rattle.std.specs.Prelude.{◌≡◌, [], length, drop, map, take, ◌≤◌, ◌+◌, ◌^◌, ◌<◌, OnOk, OnErr, IfOk};
ghost use Rattle.gw_meaning.specs.Changes.{all_lined_up, linked_to, sent, user_chain_anew};
ghost use Rattle.gw_meaning.specs.Machine.{no_chain};

use crate::chain::PriorityChain;
use gw_expr::Discipline;
use gw_meaning::{Destination, Transaction};
use gw_shared::{SharedList, Sharing};
use std::alloc::{AllocError, Global};
use std::marker::Model;

/// A user chain: how many were linked to it, and who is on it, from the front.
#[derive(Drop)]
pub struct UserChain {
    entries: u64,
    members: SharedList<Transaction>,
}

impl Model for UserChain {
    ghost use Rattle.gw_meaning.specs.Machine.{UserChain};

    ghost Value = { UserChain };

    ghost view = { λ c. record { entries = c.entries; members = c.members.items } };
}

impl UserChain {
    // Nobody was linked to it yet.
    pub fn new(alloc: Global) -> UserChain
        ensures { result ≡ no_chain }
    {
        UserChain {
            entries: 0,
            members: SharedList::new(alloc),
        }
    }

    // How many were linked to it.
    pub fn entries(&self) -> u64
        ensures { result ≡ self.now.entries }
    {
        self.entries
    }

    // How many are on it.
    pub fn len(&self) -> usize
        ensures len { result ≡ length self.now.members }
        ensures bound { result < 2 ^ 63 }
    {
        self.members.len()
    }

    // A transaction is linked: to the back or to the front. Where memory is refused, it is not.
    pub fn link(&mut self, x: Transaction, discipline: Discipline) -> Result<(), AllocError>
        ensures ok { OnOk result (self.new ≡ linked_to discipline x self.old) }
        ensures err { OnErr result (self.new ≡ self.old) }
    {
        self.members.reserve(1)?;
        match discipline {
            Discipline::Fifo => self.members.push(x),
            Discipline::Lifo => self.members.insert(0, x),
        }
        self.entries = self.entries.saturating_add(1);
        Ok(())
    }

    // An equal chain, but that it counts no transaction as linked.
    pub fn anew(&self) -> Result<UserChain, AllocError>
        ensures { IfOk result (λ c. c ≡ user_chain_anew self.now) }
    {
        Ok(UserChain {
            entries: 0,
            members: self.members.copy()?,
        })
    }

    // So many from the front go to a block: each comes onto the current chain after its equals.
    pub fn unlink(&mut self, count: u64, to: Destination, current: &mut PriorityChain)
        requires { count ≤ current.old.room }
        ensures entries { self.new.entries ≡ self.old.entries }
        ensures members { self.new.members ≡ drop count self.old.members }
        ensures current { current.new.items ≡
            all_lined_up (map (sent to) (take count self.old.members)) current.old.items }
        ensures room { current.old.room ≤ current.new.room + count }
    {
        for _one in 0..count {
            let Some(x) = self.members.pop_front() else {
                return;
            };
            current.line_up(Transaction {
                destination: to,
                ..x
            });
        }
    }
}

impl Sharing for UserChain {
    // A copy is what is shared, since a copy has no room to spare.
    fn share(&mut self) -> Result<(), AllocError> {
        self.members.share()?;
        self.members = self.members.copy()?;
        Ok(())
    }

    fn copy(&self) -> Result<UserChain, AllocError> {
        Ok(UserChain {
            entries: self.entries,
            members: self.members.copy()?,
        })
    }
}
