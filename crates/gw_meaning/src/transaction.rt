use crate::destination::Destination;
use crate::statement_id::StatementId;
use gw_nums::{Time, Val};
use std::mem::size_of;

/// A transaction. Blocks are named by their statement ids.
#[derive(Clone, Copy)]
pub struct Transaction {
    /// From 1, in the order of making.
    pub number: u64,
    /// The mark time: the absolute clock at which it entered its GENERATE, and 0 before.
    pub mark: Time,
    pub priority: Val,
    /// The block that it is in, and 0 before it entered its GENERATE.
    pub current: StatementId,
    /// The block that it goes to next, where that is set; else it goes to the block after the current one.
    pub destination: Destination,
    /// How many units it waits for on a delay chain; 0 where it waits on none.
    pub asked: u32,
}

/// A transaction on the future chain, with the time at which it moves on.
#[derive(Clone, Copy)]
pub struct Event {
    pub time: Time,
    pub transaction: Transaction,
}

// A model may keep very many of them.
const _: () = prove!(size_of::<Event>() == 40);

/// What is counted at a block.
#[derive(Clone, Copy)]
pub struct Count {
    /// Transactions that entered the block.
    pub entries: u64,
    /// Transactions in the block.
    pub content: u64,
    /// Of a GENERATE, transactions that it made.
    pub made: u64,
}
