use gw_expr::Row;

/// A report that is handed out.
#[derive(Drop)]
pub struct Report {
    /// How many edits its version has after it.
    pub edits: u64,
    pub replication: u64,
    /// The START, from 1, at whose point it was taken.
    pub start: u64,
    /// The report's bytes.
    pub text: Row<u8>,
}

/// What a query is answered.
#[derive(Drop)]
pub enum Answer {
    /// The report of the run from zero.
    Ready(Report),
    /// The recorded steps do not decide yet.
    Unfinished { recorded: u64 },
    /// There is no such START, or the run ends before it.
    NoStart,
    /// The step limit decides nothing.
    TooLong,
    /// There is no such replication.
    NoReplication,
    /// A growth was refused.
    Memory,
}
