// A transaction enters a block: room is made for all that comes of it, then it moves, and then those come whom its
// change brings. What may be refused comes first. Each kind of change and of fate is taken apart and has a function of
// its own: no reference to a change, a fate or an update goes to a call that is not inlined, since the whole of it would
// lie in memory for that.
ghost use Rattle.std.specs.Prelude.{◌≡◌, ℕ, ◌+◌, ◌<◌, ◌≤◌, OnOk, OnErr};
ghost use Rattle.gw_meaning.specs.declared.moves.Change.TheVariants as changes;
ghost use Rattle.gw_meaning.specs.declared.moves.Fate.TheVariants as fates;
ghost use Rattle.gw_meaning.specs.Changes.{placed, own_marked, own_held, arrived, crossed};
ghost use Rattle.gw_state.specs.Making.{IsAlone, IsSending, HasEntered, HasRoomToCreate};
ghost use Rattle.gw_state.specs.States.{machine_of};

use crate::parts::Parts;
use crate::waking::{grants_of, kind_of};
use gw_chains::PriorityChain;
use gw_entities::Parameters;
use gw_expr::Discipline;
use gw_meaning::{
    Arrival, Change, Destination, EntityChange, EntityKind, Event, Fate, StatementId, Transaction,
    TransactionChange, Update,
};
use gw_names::Key;
use gw_nums::{Clock, Time};
use std::alloc::{AllocError, Global};

impl Parts {
    // The active transaction enters a block, and those wake who wait for something that this writes.
    #[inline(always)]
    pub fn enter(
        &mut self,
        alloc: Global,
        id: StatementId,
        change: Change,
        fate: Fate,
    ) -> Result<(), AllocError>
        requires { IsAlone change fate }
        ensures ok { OnOk result (HasEntered id change fate (machine_of self.old) (machine_of self.new)) }
        ensures err { OnErr result (machine_of self.new ≡ machine_of self.old) }
    {
        match change {
            Change::Nothing => self.enter_for(alloc, id, fate),
            Change::Generate { next } => self.enter_generating(alloc, id, next),
            Change::Transaction(change) => self.enter_changing(alloc, id, change),
            Change::Entity(EntityChange { key, update }) => self.enter_doing(
                alloc, id, &key, &update,
            ),
            Change::Split { .. } | Change::Unlink { .. } => self.enter_sending(alloc, id, change),
        }
    }

    // It changes nothing, and goes where its fate says.
    #[inline(always)]
    fn enter_for(&mut self, alloc: Global, id: StatementId, fate: Fate) -> Result<(), AllocError>
        ensures ok { OnOk result (HasEntered id changes.Nothing fate (machine_of self.old) (machine_of self.new)) }
        ensures err { OnErr result (machine_of self.new ≡ machine_of self.old) }
    {
        match fate {
            Fate::Active => self.enter_staying(alloc, id),
            Fate::Current => self.enter_yielding(alloc, id),
            Fate::Delayed { until } => self.enter_held(alloc, id, until),
            Fate::Linked { key, discipline } => self.enter_linked(alloc, id, &key, discipline),
            Fate::Destroyed { count } => self.enter_last(alloc, id, count),
        }
    }

    // It stays active.
    #[inline(always)]
    fn enter_staying(&mut self, alloc: Global, id: StatementId) -> Result<(), AllocError>
        ensures ok { OnOk result (HasEntered id changes.Nothing fates.Active
            (machine_of self.old) (machine_of self.new)) }
        ensures err { OnErr result (machine_of self.new ≡ machine_of self.old) }
    {
        let Some(x) = self.active.as_ref() else {
            return Ok(());
        };
        let x = *x;
        let written = self.prepare(alloc, x.current, id)?;
        self.cross(x.current, id);
        self.active = Some(placed(&x, id));
        self.wake(&written);
        Ok(())
    }

    // It lets its equals on the current chain move first.
    #[inline(never)]
    fn enter_yielding(&mut self, alloc: Global, id: StatementId) -> Result<(), AllocError>
        ensures ok { OnOk result (HasEntered id changes.Nothing fates.Current
            (machine_of self.old) (machine_of self.new)) }
        ensures err { OnErr result (machine_of self.new ≡ machine_of self.old) }
    {
        let Some(x) = self.active.as_ref() else {
            return Ok(());
        };
        let x = *x;
        let written = self.prepare(alloc, x.current, id)?;
        reserve_for(&mut self.current, 1, written.count())?;
        self.cross(x.current, id);
        self.active = None;
        self.current.line_up(placed(&x, id));
        self.wake(&written);
        Ok(())
    }

    // It is held until a time.
    #[inline(always)]
    fn enter_held(&mut self, alloc: Global, id: StatementId, until: Time) -> Result<(), AllocError>
        ensures ok { OnOk result (HasEntered id changes.Nothing (fates.Delayed until)
            (machine_of self.old) (machine_of self.new)) }
        ensures err { OnErr result (machine_of self.new ≡ machine_of self.old) }
    {
        let Some(x) = self.active.as_ref() else {
            return Ok(());
        };
        let x = *x;
        let written = self.prepare(alloc, x.current, id)?;
        self.future.reserve(1)?;
        self.cross(x.current, id);
        self.active = None;
        self.future.put(Event {
            time: until,
            transaction: placed(&x, id),
        });
        self.wake(&written);
        Ok(())
    }

    // It goes to the user chain of a key.
    #[inline(never)]
    fn enter_linked(
        &mut self,
        alloc: Global,
        id: StatementId,
        key: &Key,
        discipline: Discipline,
    ) -> Result<(), AllocError>
        ensures ok { OnOk result (HasEntered id changes.Nothing (fates.Linked key.now discipline)
            (machine_of self.old) (machine_of self.new)) }
        ensures err { OnErr result (machine_of self.new ≡ machine_of self.old) }
    {
        let Some(x) = self.active.as_ref() else {
            return Ok(());
        };
        let x = *x;
        let written = self.prepare_with(alloc, x.current, id, EntityKind::UserChain, key, &[])?;
        self.linked.link(key, placed(&x, id), discipline)?;
        self.cross(x.current, id);
        self.active = None;
        self.wake(&written);
        Ok(())
    }

    // It is destroyed, and takes so many from the termination count.
    #[inline(never)]
    fn enter_last(&mut self, alloc: Global, id: StatementId, count: u64) -> Result<(), AllocError>
        ensures ok { OnOk result (HasEntered id changes.Nothing (fates.Destroyed count)
            (machine_of self.old) (machine_of self.new)) }
        ensures err { OnErr result (machine_of self.new ≡ machine_of self.old) }
    {
        let Some(x) = self.active.as_ref() else {
            return Ok(());
        };
        let x = *x;
        let written = self.prepare(alloc, x.current, id)?;
        self.parameters.forget(x.number)?;
        self.cross_out(x.current, id);
        self.active = None;
        self.progress.count_down(count);
        self.wake(&written);
        Ok(())
    }

    // A GENERATE sets the mark time and makes the next transaction, if any.
    #[inline(never)]
    fn enter_generating(
        &mut self,
        alloc: Global,
        id: StatementId,
        next: Option<Arrival>,
    ) -> Result<(), AllocError>
        ensures ok { OnOk result (HasEntered id (changes.Generate next) fates.Active
            (machine_of self.old) (machine_of self.new)) }
        ensures err { OnErr result (machine_of self.new ≡ machine_of self.old) }
    {
        let Some(x) = self.active.as_ref() else {
            return Ok(());
        };
        let x = *x;
        let written = self.prepare(alloc, x.current, id)?;
        self.reserve_to_create(&next)?;
        self.cross(x.current, id);
        self.active = Some(Transaction {
            mark: self.clocks.clock().time(),
            ..placed(&x, id)
        });
        self.create_next(next);
        self.wake(&written);
        Ok(())
    }

    // It changes itself alone.
    #[inline(always)]
    fn enter_changing(
        &mut self,
        alloc: Global,
        id: StatementId,
        change: TransactionChange,
    ) -> Result<(), AllocError>
        ensures ok { OnOk result (HasEntered id (changes.Transaction change) fates.Active
            (machine_of self.old) (machine_of self.new)) }
        ensures err { OnErr result (machine_of self.new ≡ machine_of self.old) }
    {
        let Some(x) = self.active.as_ref() else {
            return Ok(());
        };
        let x = *x;
        let written = self.prepare(alloc, x.current, id)?;
        let changed = own_marked(&change, self.clocks.clock(), placed(&x, id));
        assign(&mut self.parameters, x.number, change)?;
        self.cross(x.current, id);
        self.active = Some(changed);
        self.wake(&written);
        Ok(())
    }

    // A SPLIT or an UNLINK sends others to a block.
    #[inline(never)]
    fn enter_sending(
        &mut self,
        alloc: Global,
        id: StatementId,
        change: Change,
    ) -> Result<(), AllocError>
        requires { IsSending change }
        ensures ok { OnOk result (HasEntered id change fates.Active (machine_of self.old) (machine_of self.new)) }
        ensures err { OnErr result (machine_of self.new ≡ machine_of self.old) }
    {
        match &change {
            Change::Split { count, to } => self.enter_splitting(alloc, id, *count, *to),
            Change::Unlink { key, count, to } => {
                self.enter_unlinking(alloc, id, key, *count, *to)
            }
            _ => unreachable!(),
        }
    }

    // A SPLIT makes so many copies, which go to a block.
    #[inline(never)]
    fn enter_splitting(
        &mut self,
        alloc: Global,
        id: StatementId,
        count: u64,
        to: Destination,
    ) -> Result<(), AllocError>
        ensures ok { OnOk result (HasEntered id (changes.Split count to) fates.Active
            (machine_of self.old) (machine_of self.new)) }
        ensures err { OnErr result (machine_of self.new ≡ machine_of self.old) }
    {
        let Some(x) = self.active.as_ref() else {
            return Ok(());
        };
        let x = *x;
        let written = self.prepare(alloc, x.current, id)?;
        reserve_for(&mut self.current, count, written.count())?;
        self.parameters.inherit(alloc, x.number, self.next, count)?;
        self.cross(x.current, id);
        self.active = Some(placed(&x, id));
        self.copy_all(placed(&x, id), count, to);
        self.wake(&written);
        Ok(())
    }

    // An UNLINK sends so many from the front of a user chain to a block.
    #[inline(never)]
    fn enter_unlinking(
        &mut self,
        alloc: Global,
        id: StatementId,
        key: &Key,
        count: u64,
        to: Destination,
    ) -> Result<(), AllocError>
        ensures ok { OnOk result (HasEntered id (changes.Unlink key.now count to) fates.Active
            (machine_of self.old) (machine_of self.new)) }
        ensures err { OnErr result (machine_of self.new ≡ machine_of self.old) }
    {
        let Some(x) = self.active.as_ref() else {
            return Ok(());
        };
        let x = *x;
        let written = self.prepare_with(alloc, x.current, id, EntityKind::UserChain, key, &[])?;
        reserve_for(&mut self.current, count, written.count())?;
        self.linked.unlink(key, count, to, &mut self.current)?;
        self.cross(x.current, id);
        self.active = Some(placed(&x, id));
        self.wake(&written);
        Ok(())
    }

    // It does something to the entity with a key, and those come whom that lets in.
    #[inline(always)]
    fn enter_doing(
        &mut self,
        alloc: Global,
        id: StatementId,
        key: &Key,
        update: &Update,
    ) -> Result<(), AllocError>
        ensures ok { OnOk result (HasEntered id (changes.Entity (key.now, update.now)) fates.Active
            (machine_of self.old) (machine_of self.new)) }
        ensures err { OnErr result (machine_of self.new ≡ machine_of self.old) }
    {
        let Some(x) = self.active.as_ref() else {
            return Ok(());
        };
        let x = *x;
        let grants = grants_of(update);
        let written = self.prepare_with(alloc, x.current, id, kind_of(update), key, grants)?;
        self.reserve_to_admit(key, update, written.count())?;
        self.entities
            .make(key, update, self.clocks.clock(), x.number)?;
        self.cross(x.current, id);
        self.active = Some(placed(&x, id));
        self.admit(key, update);
        self.wake(&written);
        Ok(())
    }

    // A transaction leaves a block for another, in which it stays.
    #[inline(never)]
    fn cross(&mut self, from: StatementId, to: StatementId)
        requires { to < self.old.counts.limit }
        ensures rest { self.new ≡ record self.old { counts = self.new.counts } }
        ensures entries { self.new.counts.entries ≡ crossed fates.Active self.old.counts.entries from to }
        ensures limit { self.new.counts.limit ≡ self.old.counts.limit }
    {
        self.counts.cross(from, to, &Fate::Active);
    }

    // A transaction leaves a block for another, in which it is destroyed.
    #[inline(never)]
    fn cross_out(&mut self, from: StatementId, to: StatementId)
        requires { to < self.old.counts.limit }
        ensures rest { self.new ≡ record self.old { counts = self.new.counts } }
        ensures entries { (count : ℕ) → self.new.counts.entries ≡
            crossed (fates.Destroyed count) self.old.counts.entries from to }
    {
        self.counts.cross(from, to, &Fate::Destroyed { count: 0 });
    }

    // Makes room for the transaction that a GENERATE makes, if any. Nobody moves.
    #[inline(always)]
    fn reserve_to_create(&mut self, next: &Option<Arrival>) -> Result<(), AllocError>
        ensures ok { OnOk result (HasRoomToCreate next.now self.new.future.room self.new.counts.limit) }
        ensures limit { self.old.counts.limit ≤ self.new.counts.limit }
        ensures same { machine_of self.new ≡ machine_of self.old }
        ensures rest { self.new ≡ record self.old { future = self.new.future; counts = self.new.counts } }
    {
        let Some(arrival) = next else {
            return Ok(());
        };
        self.future.reserve(1)?;
        self.counts.reserve(arrival.id)
    }

    // A GENERATE makes the next transaction, if any.
    #[inline(always)]
    fn create_next(&mut self, next: Option<Arrival>)
        requires { HasRoomToCreate next self.old.future.room self.old.counts.limit }
        ensures arrived { machine_of self.new ≡ arrived next (machine_of self.old) }
        ensures rest { self.new ≡ record self.old {
          next = self.new.next;
          future = self.new.future;
          counts = self.new.counts;
        } }
    {
        if let Some(arrival) = next {
            self.create(arrival);
        }
    }
}

// Makes room on the current chain for so many who come, and for so many others.
#[inline(always)]
fn reserve_for(current: &mut PriorityChain, count: u64, others: usize) -> Result<(), AllocError>
    ensures ok { OnOk result (others + count ≤ current.new.room) }
    ensures current { current.new.items ≡ current.old.items }
{
    let Some(all) = others.checked_add(count as usize) else {
        return Err(AllocError);
    };
    current.reserve(all)
}

// Sets the parameter that a change sets, if it sets one.
#[inline(always)]
fn assign(
    parameters: &mut Parameters,
    number: u64,
    change: TransactionChange,
) -> Result<(), AllocError>
    ensures ok { OnOk result (parameters.new ≡ own_held change number parameters.old) }
    ensures err { OnErr result (parameters.new ≡ parameters.old) }
{
    match change {
        TransactionChange::Assign { key, to } => parameters.assign(number, &key, to),
        TransactionChange::Loop { key, left, .. } => parameters.assign(number, &key, left),
        _ => Ok(()),
    }
}

// The transaction in the block that it enters.
#[inline(always)]
fn placed(x: &Transaction, id: StatementId) -> Transaction
    ensures { result ≡ placed x.now id }
{
    Transaction {
        current: id,
        destination: Destination::none(),
        asked: 0,
        ..*x
    }
}

// What a block changes of its transaction, but for its parameters.
#[inline(always)]
fn own_marked(change: &TransactionChange, clock: Clock, x: Transaction) -> Transaction
    ensures { result ≡ own_marked change.now clock x }
{
    match change {
        TransactionChange::Mark => Transaction {
            mark: clock.time(),
            ..x
        },
        TransactionChange::Priority { to } => Transaction { priority: *to, ..x },
        TransactionChange::Transfer { to } | TransactionChange::Loop { to, .. } => Transaction {
            destination: Destination::to(*to),
            ..x
        },
        TransactionChange::Assign { .. } => x,
    }
}
