use crate::statement_id::StatementId;
use gw_names::Key;

/// A kind of entity that a block names.
#[derive(Clone, Copy, PartialEq, Eq, Hash)]
pub enum EntityKind {
    Facility,
    Queue,
    Storage,
    Savevalue,
    Switch,
    UserChain,
    Table,
}

/// What a refused attempt read, and a step may write.
#[derive(Clone, Drop, PartialEq, Eq, Hash)]
pub enum Watched {
    /// The entity of this kind with this key.
    Entity(EntityKind, Key),
    /// The counts of the block with this statement id.
    Counts(StatementId),
}
