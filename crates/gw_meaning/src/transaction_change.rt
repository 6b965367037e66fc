use crate::statement_id::StatementId;
use gw_names::Key;
use gw_nums::Val;

/// What a block changes of its transaction.
#[derive(Drop)]
pub enum TransactionChange {
    /// A MARK sets its mark time to the clock.
    Mark,
    /// A PRIORITY gives it this priority.
    Priority {
        to: Val,
    },
    /// A TRANSFER sends it to this block.
    Transfer {
        to: StatementId,
    },
    /// An ASSIGN, or a LOOP that goes on, sets this parameter to this value.
    Assign {
        key: Key,
        to: Val,
    },
    /// A LOOP sets this parameter to what is left, and sends it to this block.
    Loop {
        key: Key,
        left: Val,
        to: StatementId,
    },
}
