use gw_nums::{Time, Val};

/// For whom an operand is evaluated: for a transaction, or for none, as a GENERATE's for the one that it makes next.
#[derive(Clone, Copy)]
pub struct Asker {
    /// Whether there is a transaction: its number, priority and mark time follow, and are 0 where there is none.
    pub is_transaction: bool,
    pub number: u64,
    pub priority: Val,
    pub mark: Time,
    /// What is left of the termination count.
    pub remaining: u64,
}
