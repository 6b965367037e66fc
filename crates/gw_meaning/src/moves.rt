use crate::destination::Destination;
use crate::entity_change::EntityChange;
use crate::statement_id::StatementId;
use crate::transaction_change::TransactionChange;
use crate::watched::Watched;
use gw_expr::{Discipline, Row};
use gw_names::Key;
use gw_nums::{Clock, Time, Val};

/// A transaction that a GENERATE is to make.
#[derive(Clone, Copy)]
pub struct Arrival {
    /// The GENERATE's statement id.
    pub id: StatementId,
    /// When it comes.
    pub time: Time,
    pub priority: Val,
}

/// What a block changes beside the counts of blocks.
#[derive(Drop)]
pub enum Change {
    Nothing,
    /// A GENERATE sets the mark time of its transaction and makes the next one, if any.
    Generate {
        next: Option<Arrival>,
    },
    /// What it changes of its transaction, and no more.
    Transaction(TransactionChange),
    /// A SPLIT makes so many copies of its transaction, which go to this block, or on from its own where none is set.
    Split {
        count: u64,
        to: Destination,
    },
    /// An UNLINK sends so many from the front of this user chain to this block; none is set where nobody goes.
    Unlink {
        key: Key,
        count: u64,
        to: Destination,
    },
    /// What it makes of the entity that it names, and whom that lets in.
    Entity(EntityChange),
}

/// What becomes of the transaction that entered a block.
#[derive(Drop)]
pub enum Fate {
    /// It stays active.
    Active,
    /// It goes to the current chain, after its equals.
    Current,
    /// It goes to the future chain.
    Delayed { until: Time },
    /// It goes to this user chain: to the back, or to the front.
    Linked { key: Key, discipline: Discipline },
    /// It is destroyed, and takes `count` from the termination count.
    Destroyed { count: u64 },
}

/// What a step does.
#[derive(Drop)]
pub enum Move {
    /// A START of `count` with the first transactions of the GENERATEs, where it is the one that primes them.
    Start {
        count: u64,
        arrivals: Row<Arrival>,
    },
    /// A command that changes nothing but the count of commands: the streams are what its evaluation leaves.
    Command,
    /// A RESET counts anew.
    Reset,
    /// A CLEAR begins anew.
    Clear,
    /// The active transaction enters a block.
    Enter {
        id: StatementId,
        change: Change,
        fate: Fate,
    },
    /// The active transaction is refused at a block by the facility or storage that it names, of which it asks so many
    /// units, and waits on its delay chain.
    Refuse {
        id: StatementId,
        key: Key,
        units: u32,
    },
    /// The active transaction is refused at a TEST or a GATE, and waits as it came for a change of something that its
    /// attempt read.
    Watch {
        read: Row<Watched>,
    },
    /// The first transaction of the current chain becomes active.
    Pick,
    /// The clock moves on, and the transactions of that time go to the current chain.
    Clock {
        time: Clock,
    },
}
