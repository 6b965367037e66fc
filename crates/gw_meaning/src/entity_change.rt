use gw_expr::Row;
use gw_names::Key;
use gw_nums::Val;
use std::marker::Model;

/// What a block makes of the entity that it names: one case for each kind of entity.
#[derive(Drop)]
pub enum Update {
    Facility(FacilityUpdate),
    Queue(QueueUpdate),
    Storage(StorageUpdate),
    /// The savevalue has this value.
    Savevalue { to: Val },
    /// The switch is set, or else reset.
    Switch { set: bool },
    /// The table has one more value.
    Table { value: Val },
}

/// What a block makes of a facility.
#[derive(Clone, Copy)]
pub enum FacilityUpdate {
    /// The transaction takes it.
    Seize,
    /// The transaction gives it back; `next` is the number of the first that waits for it, who takes it at once.
    Release { next: Option<u64> },
}

/// What a block makes of a queue.
#[derive(Clone, Copy)]
pub enum QueueUpdate {
    /// So many units come.
    Queue { units: u64 },
    /// So many units leave; `at_once` says that the transaction came there while the clock stands as it does.
    Depart { units: u64, at_once: bool },
}

/// What a block makes of a storage.
#[derive(Drop)]
pub enum StorageUpdate {
    /// So many units come into use.
    Enter {
        units: u64,
    },
    /// So many units are given back; `grants` has for each of its delay chain, from the front, the units with which it
    /// is let in, and `None` where it goes on waiting.
    Leave {
        units: u64,
        grants: Row<Option<u64>>,
    },
}

/// An entity, and what a block makes of it.
#[derive(Drop)]
pub struct EntityChange {
    pub key: Key,
    pub update: Update,
}

impl Model for EntityChange {
    ghost use Rattle.gw_names.specs.declared.key.Key.{Key};
    ghost use Rattle.gw_meaning.specs.declared.entity_change.Update.{Update};

    ghost Value = { Key × Update };

    ghost view = { λ c. (c.key, c.update) };
}
