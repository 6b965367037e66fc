ghost use Rattle.std.specs.Prelude.{◌≡◌, ◌+◌, ◌++◌, ◌≤◌, ◌<◌, [], length, insert, option_to_list, ◌==◌, IfNone, IfOk};
ghost use Rattle.std.specs.Prelude.{OnOk, IsTrue, ◌∷◌, ◌^◌};
ghost use Rattle.std.specs.Slice.{IsItemAt};
ghost use Rattle.gw_meaning.specs.Machine.{Machine};
ghost use Rattle.gw_meaning.specs.Changes.{lined_up};
ghost use Rattle.gw_chains.specs.Chains.{with_grant, without_grant, has_grant, HasRoomToLetAllIn, all_let_in};

use crate::counts::Counts;
use crate::entering::let_in;
use gw_meaning::Transaction;
use gw_shared::SharedList;
use std::alloc::{AllocError, Global};
use std::marker::Model;

/// A chain of transactions, always in order: by priority, first in first out within.
#[derive(Drop)]
pub struct PriorityChain {
    transactions: SharedList<Transaction>,
}

impl Model for PriorityChain {
    ghost use Rattle.gw_meaning.specs.Machine.{AreInOrder};
    ghost use Rattle.gw_meaning.specs.declared.transaction.Transaction.{Transaction};
    ghost use Rattle.gw_chains.specs.Chains.{Chain};

    ghost Value = { Chain Transaction };

    ghost view = { λ c. record { items = c.transactions.items; room = c.transactions.room } };

    ghost invariant = { λ c. AreInOrder c.transactions.items };
}

impl PriorityChain {
    /// An empty chain.
    pub fn new(alloc: Global) -> PriorityChain
        ensures { result.items ≡ [] }
    {
        PriorityChain {
            transactions: SharedList::new(alloc),
        }
    }

    /// How many transactions are on it.
    pub fn len(&self) -> usize
        ensures len { result ≡ length self.now.items }
        ensures bound { result < 2 ^ 63 }
    {
        self.transactions.len()
    }

    /// Whether none is on it.
    pub fn is_empty(&self) -> bool
        ensures { result ≡ (length self.now.items == 0) }
    {
        self.transactions.is_empty()
    }

    /// The transaction at an index, from the front.
    pub fn get(&self, index: usize) -> Option<&Transaction>
        ensures { IsItemAt self.now.items index result }
    {
        self.transactions.get(index)
    }

    /// Makes room for so many more.
    #[inline(always)]
    pub fn reserve(&mut self, count: usize) -> Result<(), AllocError>
        ensures ok { OnOk result (count ≤ self.new.room) }
        ensures items { self.new.items ≡ self.old.items }
    {
        self.transactions.reserve(count)
    }

    /// Puts a transaction on it: after its equals, in front of the first of lower priority.
    pub fn line_up(&mut self, x: Transaction)
        requires { 0 < self.old.room }
        ensures items { self.new.items ≡ lined_up x self.old.items }
        ensures room { self.old.room ≤ self.new.room + 1 }
    {
        self.line_up_ref(&x);
    }

    // The same for one that is borrowed. Where it goes to the end, as most do, it is copied right there.
    #[inline(always)]
    pub(crate) fn line_up_ref(&mut self, x: &Transaction)
        requires { 0 < self.old.room }
        ensures items { self.new.items ≡ lined_up x.now self.old.items }
        ensures room { self.old.room ≤ self.new.room + 1 }
    {
        if self.goes_last(x) {
            self.transactions.push(*x);
        } else {
            self.insert(*x);
        }
    }

    // Whether a transaction goes to the end, as most do.
    #[inline(always)]
    fn goes_last(&self, x: &Transaction) -> bool
        ensures { IsTrue result → lined_up x.now self.now.items ≡ self.now.items ++ x.now ∷ [] }
    {
        let count = self.transactions.len();
        if count == 0 {
            return true;
        }
        let last = self.transactions.at(count - 1);
        !last.priority.is_below(x.priority)
    }

    // Puts a transaction where it goes.
    #[cold]
    #[inline(never)]
    #[tactic(auto, using(crate::proofs::ChainLaws::lined_up_in_order))]
    fn insert(&mut self, x: Transaction)
        requires { 0 < self.old.room }
        ensures items { self.new.items ≡ lined_up x self.old.items }
        ensures room { self.old.room ≤ self.new.room + 1 }
    {
        let index = self.place_behind(&x);
        self.transactions.insert(index, x);
    }

    // Where a transaction goes: halved out, since the chain is in order.
    #[tactic(auto, using(crate::proofs::ChainLaws::lined_up_at, crate::proofs::ChainLaws::comes_first, crate::proofs::ChainLaws::nobody_left))]
    fn place_behind(&self, x: &Transaction) -> usize
        ensures within { result ≤ length self.now.items }
        ensures index { lined_up x.now self.now.items ≡ insert self.now.items result x.now }
    {
        let mut low = 0;
        let mut high = self.transactions.len();
        while low < high {
            let middle = low + (high - low) / 2;
            if self.transactions.at(middle).priority.is_below(x.priority) {
                high = middle;
            } else {
                low = middle + 1;
            }
        }
        low
    }

    /// Takes the first one off.
    #[inline(always)]
    pub fn take_first(&mut self) -> Option<Transaction>
        ensures items { self.old.items ≡ option_to_list result ++ self.new.items }
        ensures none { IfNone result (self.old.items ≡ []) }
    {
        self.transactions.pop_front()
    }

    // Each with a grant is let in, one by one from the front. The others stay in their order.
    pub(crate) fn let_in_some(
        &mut self,
        grants: &[Option<u64>],
        current: &mut PriorityChain,
        counts: &mut Counts,
    )
        requires room { HasRoomToLetAllIn (with_grant grants.now self.old.items) current.old.room counts.old.limit }
        requires going { length (with_grant grants.now self.old.items) ≤ self.old.room }
        ensures items { self.new.items ≡ without_grant grants.now self.old.items }
        ensures let_in { (s : Machine) →
            record s { current = current.new.items; counts = counts.new.entries } ≡
            all_let_in (with_grant grants.now self.old.items)
            (record s { current = current.old.items; counts = counts.old.entries }) }
        ensures room { current.old.room ≤ current.new.room + length (with_grant grants.now self.old.items) }
    {
        let mut kept = 0;
        for i in 0..self.transactions.len().min(grants.len()) {
            if has_grant(grants, i) {
                let x = self.transactions.remove(kept);
                let_in(current, counts, x);
            } else {
                kept += 1;
            }
        }
    }

    /// Copies share from now on what it holds now. Its room is gone, but it holds the same, also where memory is
    /// refused.
    pub fn share(&mut self) -> Result<(), AllocError>
        ensures { self.new.items ≡ self.old.items }
    {
        self.transactions.share()
    }

    /// An equal chain.
    pub fn copy(&self) -> Result<PriorityChain, AllocError>
        ensures { IfOk result (λ c. c.items ≡ self.now.items) }
    {
        Ok(PriorityChain {
            transactions: self.transactions.copy()?,
        })
    }
}

/// Whether the one at an index of a chain has a grant.
pub fn has_grant(grants: &[Option<u64>], index: usize) -> bool
    ensures { result ≡ has_grant grants.now index }
{
    match grants.get(index) {
        Some(grant) => grant.is_some(),
        None => false,
    }
}
