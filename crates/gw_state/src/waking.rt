// What a block that is entered writes, for those who wait for a change.
ghost use Rattle.std.specs.Prelude.{◌≡◌, ◌++◌, ◌∷◌, ◌<◌, ◌≤◌, option_copied, IfOk, OnOk};
ghost use Rattle.gw_meaning.specs.declared.watched.Watched.TheVariants as watched;
ghost use Rattle.gw_meaning.specs.Changes.{crossing, crossings, update_grants, woken};
ghost use Rattle.gw_meaning.specs.Machine.{delay_at};
ghost use Rattle.gw_meaning.specs.Watching.{kind_of};
ghost use Rattle.gw_chains.specs.Chains.{delays_of, items_of};
ghost use Rattle.gw_state.specs.States.{machine_of};
ghost use Rattle.gw_state.specs.Waking.{WakesAs, HasRoomToWake, crossed_by, count_woken};

use crate::parts::Parts;
use gw_chains::{PriorityChain, has_grant};
use gw_meaning::{
    EntityKind, FacilityUpdate, StatementId, StorageUpdate, Transaction, Update, Watched,
};
use gw_names::Key;
use std::alloc::{AllocError, Global};
use std::marker::Model;

// What is written, and how many wake by it. Where nobody waits for a change nothing is listed, since nobody wakes then.
// The list lies apart, so that this takes little where there is none.
#[derive(Drop)]
pub struct Written {
    list: Option<Box<Vec<Watched>>>,
    count: usize,
}

impl Model for Written {
    ghost use Rattle.std.specs.Prelude.{[], unwrap_or};
    ghost use Rattle.std.specs.Option.{option_map};
    ghost use Rattle.gw_state.specs.Waking.{Wake};

    ghost Value = { Wake };

    ghost view = { λ w. record {
      things = unwrap_or (option_map (λ b. b.value.items) w.list) [];
      count = w.count;
    } };
}

impl Written {
    // How many wake.
    #[inline(always)]
    pub fn count(&self) -> usize
        ensures { result ≡ self.now.count }
    {
        self.count
    }
}

impl Parts {
    // What is written where a transaction goes from a block to another. Room is made to count it there, and for those
    // who wake. Nobody moves.
    #[inline(always)]
    pub(crate) fn prepare(
        &mut self,
        alloc: Global,
        from: StatementId,
        to: StatementId,
    ) -> Result<Written, AllocError>
        ensures wakes { IfOk result (λ w. WakesAs self.old.retry.waiters w.things (crossed_by from to)) }
        ensures room { IfOk result (λ w. HasRoomToWake w self.new.retry.waiters self.new.retry.room
            self.new.current.room) }
        ensures block { OnOk result (to < self.new.counts.limit) }
        ensures same { machine_of self.new ≡ machine_of self.old }
        ensures rest { self.new ≡ record self.old {
          current = self.new.current;
          retry = self.new.retry;
          counts = self.new.counts;
        } }
    {
        self.counts.reserve(to)?;
        if self.retry.is_empty() {
            return Ok(Written {
                list: None,
                count: 0,
            });
        }
        self.list_written(alloc, from, to)
    }

    // The same, where the entity with a key changes too, and those of its delay chain with a grant enter their blocks.
    #[inline(always)]
    pub(crate) fn prepare_with(
        &mut self,
        alloc: Global,
        from: StatementId,
        to: StatementId,
        kind: EntityKind,
        key: &Key,
        grants: &[Option<u64>],
    ) -> Result<Written, AllocError>
        ensures wakes { IfOk result (λ w. WakesAs self.old.retry.waiters w.things (crossed_by from to ++
            (watched.Entity kind key.now ∷ crossings grants.now (delay_at (delays_of self.old.delays) key.now)))) }
        ensures room { IfOk result (λ w. HasRoomToWake w self.new.retry.waiters self.new.retry.room
            self.new.current.room) }
        ensures block { OnOk result (to < self.new.counts.limit) }
        ensures same { machine_of self.new ≡ machine_of self.old }
        ensures rest { self.new ≡ record self.old {
          current = self.new.current;
          retry = self.new.retry;
          counts = self.new.counts;
        } }
    {
        self.counts.reserve(to)?;
        if self.retry.is_empty() {
            return Ok(Written {
                list: None,
                count: 0,
            });
        }
        self.list_written_with(alloc, from, to, kind, key, grants)
    }

    #[cold]
    #[inline(never)]
    fn list_written(
        &mut self,
        alloc: Global,
        from: StatementId,
        to: StatementId,
    ) -> Result<Written, AllocError>
        ensures things { IfOk result (λ w. w.things ≡ crossed_by from to) }
        ensures room { IfOk result (λ w. HasRoomToWake w self.new.retry.waiters self.new.retry.room
            self.new.current.room) }
        ensures same { machine_of self.new ≡ machine_of self.old }
        ensures rest { self.new ≡ record self.old { current = self.new.current; retry = self.new.retry } }
    {
        let list = crossed(alloc, from, to)?;
        self.reserve_to_wake(alloc, list)
    }

    #[cold]
    #[inline(never)]
    fn list_written_with(
        &mut self,
        alloc: Global,
        from: StatementId,
        to: StatementId,
        kind: EntityKind,
        key: &Key,
        grants: &[Option<u64>],
    ) -> Result<Written, AllocError>
        ensures things { IfOk result (λ w. w.things ≡ crossed_by from to ++
            (watched.Entity kind key.now ∷ crossings grants.now (delay_at (delays_of self.old.delays) key.now))) }
        ensures room { IfOk result (λ w. HasRoomToWake w self.new.retry.waiters self.new.retry.room
            self.new.current.room) }
        ensures same { machine_of self.new ≡ machine_of self.old }
        ensures rest { self.new ≡ record self.old { current = self.new.current; retry = self.new.retry } }
    {
        let mut list = crossed(alloc, from, to)?;
        list.push(Watched::Entity(kind, key.clone()?))?;
        push_admitted(&mut list, grants, self.delays.chain(key))?;
        self.reserve_to_wake(alloc, list)
    }

    // Makes room for those who wake by what is written. Nobody moves.
    fn reserve_to_wake(&mut self, alloc: Global, list: Vec<Watched>) -> Result<Written, AllocError>
        ensures things { IfOk result (λ w. w.things ≡ list.items) }
        ensures room { IfOk result (λ w. HasRoomToWake w self.new.retry.waiters self.new.retry.room
            self.new.current.room) }
        ensures same { machine_of self.new ≡ machine_of self.old }
        ensures rest { self.new ≡ record self.old { current = self.new.current; retry = self.new.retry } }
    {
        let count = self.retry.reserve(list.as_slice())?;
        self.current.reserve(count)?;
        Ok(Written {
            list: Some(Box::new(alloc, list)?),
            count,
        })
    }

    // Those who wait for something that was written line up on the current chain.
    #[inline(always)]
    pub fn wake(&mut self, written: &Written)
        requires { HasRoomToWake written.now self.old.retry.waiters self.old.retry.room self.old.current.room }
        ensures { machine_of self.new ≡ woken written.now.things (machine_of self.old) }
    {
        if let Some(list) = &written.list {
            self.wake_by(list.as_slice());
        }
    }

    #[cold]
    #[inline(never)]
    fn wake_by(&mut self, written: &[Watched])
        requires going { count_woken written.now self.old.retry.waiters ≤ self.old.retry.room }
        requires current { count_woken written.now self.old.retry.waiters ≤ self.old.current.room }
        ensures { machine_of self.new ≡ woken written.now (machine_of self.old) }
    {
        self.retry.wake(written, &mut self.current);
    }
}

// The counts of the block that a transaction leaves, and of the one to which it goes.
fn crossed(alloc: Global, from: StatementId, to: StatementId) -> Result<Vec<Watched>, AllocError>
    ensures { IfOk result (λ list. list.items ≡ crossed_by from to) }
{
    let mut list = Vec::new(alloc);
    list.push(Watched::Counts(from))?;
    list.push(Watched::Counts(to))?;
    Ok(list)
}

// The kind of the entity that an update changes.
#[inline(always)]
pub fn kind_of(update: &Update) -> EntityKind
    ensures { result ≡ kind_of update.now }
{
    match update {
        Update::Facility(_) => EntityKind::Facility,
        Update::Queue(_) => EntityKind::Queue,
        Update::Storage(_) => EntityKind::Storage,
        Update::Savevalue { .. } => EntityKind::Savevalue,
        Update::Switch { .. } => EntityKind::Switch,
        Update::Table { .. } => EntityKind::Table,
    }
}

// The grants of those of the delay chain whom an update lets in.
#[inline(always)]
pub fn grants_of(update: &Update) -> &[Option<u64>]
    ensures { result.now ≡ update_grants update.now }
{
    match update {
        Update::Facility(FacilityUpdate::Release { .. }) => &[Some(1)],
        Update::Storage(StorageUpdate::Leave { grants, .. }) => grants.as_slice(),
        _ => &[],
    }
}

// The counts that a transaction changes where it goes to a block.
fn push_crossing(
    written: &mut Vec<Watched>,
    x: &Transaction,
    to: Option<StatementId>,
) -> Result<(), AllocError>
    ensures { OnOk result (written.new.items ≡ written.old.items ++ crossing x.now to) }
{
    if let Some(id) = to {
        written.push(Watched::Counts(x.current))?;
        written.push(Watched::Counts(id))?;
    }
    Ok(())
}

// The counts that those of a delay chain change who have a grant, where there is one.
fn push_admitted(
    written: &mut Vec<Watched>,
    grants: &[Option<u64>],
    chain: Option<&PriorityChain>,
) -> Result<(), AllocError>
    ensures { OnOk result (written.new.items ≡
        written.old.items ++ crossings grants.now (items_of (option_copied chain.entry))) }
{
    match chain {
        Some(chain) => push_crossings(written, grants, chain),
        None => Ok(()),
    }
}

// The counts that those of a chain change who have a grant.
fn push_crossings(
    written: &mut Vec<Watched>,
    grants: &[Option<u64>],
    chain: &PriorityChain,
) -> Result<(), AllocError>
    ensures { OnOk result (written.new.items ≡ written.old.items ++ crossings grants.now chain.now.items) }
{
    for i in 0..chain.len().min(grants.len()) {
        let Some(x) = chain.get(i) else {
            unreachable!()
        };
        if has_grant(grants, i) {
            push_crossing(written, x, x.destination.id())?;
        }
    }
    Ok(())
}
