// Who is let in after a RELEASE or a LEAVE: room for them first, then the change, which cannot fail.
ghost use Rattle.std.specs.Prelude.{◌≡◌, ◌+◌, ◌-◌, ◌<◌, ◌≤◌, [], ◌∷◌, Some, length, IfOk, OnOk};
ghost use Rattle.gw_meaning.specs.Tables.{value_of};
ghost use Rattle.gw_meaning.specs.Machine.{delay_at};
ghost use Rattle.gw_meaning.specs.Changes.{some_let_in, admitted};
ghost use Rattle.gw_chains.specs.Chains.{delays_of, room_of, first_of, with_grant, IsWithin, AreWithin, HasRoomToLetIn, HasRoomToLetAllIn};
ghost use Rattle.gw_state.specs.Admitting.{HasRoomToAdmit, going};
ghost use Rattle.gw_state.specs.States.{machine_of};

use crate::parts::Parts;
use gw_chains::{Counts, PriorityChain, has_grant, let_in};
use gw_meaning::{FacilityUpdate, StorageUpdate, Transaction, Update};
use gw_names::Key;
use std::alloc::AllocError;

impl Parts {
    // Makes room to let in those of the delay chain of a key whom an update lets in, beside that for so many others which is
    // there. Nobody moves.
    #[inline(always)]
    pub(crate) fn reserve_to_admit(
        &mut self,
        key: &Key,
        update: &Update,
        others: usize,
    ) -> Result<(), AllocError>
        requires { others ≤ self.old.current.room }
        ensures ok { OnOk result (HasRoomToAdmit key.now update.now self.new.delays (self.new.current.room - others)
            self.new.counts.limit) }
        ensures others { OnOk result (others ≤ self.new.current.room) }
        ensures limit { self.old.counts.limit ≤ self.new.counts.limit }
        ensures same { machine_of self.new ≡ machine_of self.old }
        ensures rest { self.new ≡ record self.old {
          current = self.new.current;
          delays = self.new.delays;
          counts = self.new.counts;
        } }
    {
        match update {
            Update::Facility(FacilityUpdate::Release { .. }) => self.reserve_first(key, others),
            Update::Storage(StorageUpdate::Leave { grants, .. }) => {
                self.reserve_some(key, grants.as_slice(), others)
            }
            _ => Ok(()),
        }
    }

    // Room to let in the first of the delay chain of a facility.
    #[inline(never)]
    fn reserve_first(&mut self, key: &Key, others: usize) -> Result<(), AllocError>
        ensures ok { OnOk result (HasRoomToLetIn (first_of (delay_at (delays_of self.new.delays) key.now))
            (self.new.current.room - others) self.new.counts.limit) }
        ensures others { OnOk result (others < self.new.current.room) }
        ensures limit { self.old.counts.limit ≤ self.new.counts.limit }
        ensures same { machine_of self.new ≡ machine_of self.old }
        ensures rest { self.new ≡ record self.old { current = self.new.current; counts = self.new.counts } }
    {
        let Some(all) = others.checked_add(1) else {
            return Err(AllocError);
        };
        self.current.reserve(all)?;
        match self.delays.first(key) {
            Some(x) => reserve_block(x, &mut self.counts),
            None => Ok(()),
        }
    }

    // Room to let in those of the delay chain of a storage who have a grant. The chain stays as it is.
    #[inline(never)]
    fn reserve_some(
        &mut self,
        key: &Key,
        grants: &[Option<u64>],
        others: usize,
    ) -> Result<(), AllocError>
        ensures ok { OnOk result (HasRoomToLetAllIn
            (with_grant grants.now (delay_at (delays_of self.old.delays) key.now))
            (self.new.current.room - others) self.new.counts.limit) }
        ensures going { OnOk result (length (with_grant grants.now (delay_at (delays_of self.old.delays) key.now)) ≤
            room_of (value_of self.new.delays key.now)) }
        ensures others { OnOk result (others ≤ self.new.current.room) }
        ensures limit { self.old.counts.limit ≤ self.new.counts.limit }
        ensures same { machine_of self.new ≡ machine_of self.old }
        ensures rest { self.new ≡ record self.old {
          current = self.new.current;
          delays = self.new.delays;
          counts = self.new.counts;
        } }
    {
        let Some(chain) = self.delays.chain(key) else {
            self.current.reserve(others)?;
            return Ok(());
        };
        let count = reserve_blocks(chain, grants, &mut self.counts)?;
        let Some(all) = count.checked_add(others) else {
            return Err(AllocError);
        };
        self.current.reserve(all)?;
        self.delays.reserve(key, count)
    }

    // Those of the delay chain of a key whom an update lets in go to the current chain, one by one from the front: of a
    // facility the first, of a storage each with a grant.
    #[inline(always)]
    pub(crate) fn admit(&mut self, key: &Key, update: &Update)
        requires { HasRoomToAdmit key.now update.now self.old.delays self.old.current.room self.old.counts.limit }
        ensures admitted { machine_of self.new ≡ admitted key.now update.now (machine_of self.old) }
        ensures room { self.old.current.room ≤ self.new.current.room + length (going key.now update.now self.old.delays) }
        ensures rest { self.new ≡ record self.old {
          current = self.new.current;
          delays = self.new.delays;
          counts = self.new.counts;
        } }
    {
        match update {
            Update::Facility(FacilityUpdate::Release { .. }) => self.admit_first(key),
            Update::Storage(StorageUpdate::Leave { grants, .. }) => {
                self.admit_some(key, grants.as_slice());
            }
            _ => (),
        }
    }

    // Those of the delay chain of a storage who have a grant are let in.
    #[inline(never)]
    fn admit_some(&mut self, key: &Key, grants: &[Option<u64>])
        requires room { HasRoomToLetAllIn (with_grant grants.now (delay_at (delays_of self.old.delays) key.now))
            self.old.current.room self.old.counts.limit }
        requires going { length (with_grant grants.now (delay_at (delays_of self.old.delays) key.now)) ≤
            room_of (value_of self.old.delays key.now) }
        ensures admitted { machine_of self.new ≡ some_let_in key.now grants.now []
            (delay_at (delays_of self.old.delays) key.now) (machine_of self.old) }
        ensures room { self.old.current.room ≤ self.new.current.room +
            length (with_grant grants.now (delay_at (delays_of self.old.delays) key.now)) }
        ensures rest { self.new ≡ record self.old {
          current = self.new.current;
          delays = self.new.delays;
          counts = self.new.counts;
        } }
    {
        let current = &mut self.current;
        self.delays
            .let_in_some(key, grants, current, &mut self.counts);
    }

    // The first of the delay chain of a facility is let in, where somebody waits.
    #[inline(never)]
    fn admit_first(&mut self, key: &Key)
        requires { HasRoomToLetIn (first_of (delay_at (delays_of self.old.delays) key.now))
            self.old.current.room self.old.counts.limit }
        ensures admitted { machine_of self.new ≡ some_let_in key.now (Some 1 ∷ []) []
            (delay_at (delays_of self.old.delays) key.now) (machine_of self.old) }
        ensures room { self.old.current.room ≤ self.new.current.room +
            length (with_grant (Some 1 ∷ []) (delay_at (delays_of self.old.delays) key.now)) }
        ensures rest { self.new ≡ record self.old {
          current = self.new.current;
          delays = self.new.delays;
          counts = self.new.counts;
        } }
    {
        if let Some(x) = self.delays.take_first(key) {
            let_in(&mut self.current, &mut self.counts, x);
        }
    }
}

// Makes room for the counts of the blocks at which those with a grant wait. Returns how many they are.
fn reserve_blocks(
    chain: &PriorityChain,
    grants: &[Option<u64>],
    counts: &mut Counts,
) -> Result<usize, AllocError>
    ensures count { IfOk result (λ count. count ≡ length (with_grant grants.now chain.now.items)) }
    ensures within { OnOk result (AreWithin (with_grant grants.now chain.now.items) counts.new.limit) }
    ensures entries { counts.new.entries ≡ counts.old.entries }
    ensures limit { counts.old.limit ≤ counts.new.limit }
{
    let mut count = 0;
    for i in 0..chain.len() {
        let Some(x) = chain.get(i) else {
            unreachable!()
        };
        if has_grant(grants, i) {
            reserve_block(x, counts)?;
            count += 1;
        }
    }
    Ok(count)
}

// Makes room for the count of the block at which a transaction waits.
fn reserve_block(x: &Transaction, counts: &mut Counts) -> Result<(), AllocError>
    ensures ok { OnOk result (IsWithin x.now.destination counts.new.limit) }
    ensures entries { counts.new.entries ≡ counts.old.entries }
    ensures limit { counts.old.limit ≤ counts.new.limit }
{
    match x.destination.id() {
        Some(id) => counts.reserve(id),
        None => Ok(()),
    }
}
