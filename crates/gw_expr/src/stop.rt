ghost use Rattle.std.specs.Prelude.{◌≡◌};
ghost use Rattle.gw_expr.specs.Stops.{number_of};

use thiserror::Error;

/// Why an attempt, or the priming of a START, cannot go on. The numbers X1 to X12 are the product's own.
#[derive(Clone, Copy, Debug, PartialEq, Eq, Error)]
pub enum Stop {
    /// X1: a sampled time, a half range or a time to the first transaction is below 0.
    #[error("a time is below 0")]
    NegativeTime,
    /// X2: RELEASE by another than the owner.
    #[error("the facility is not owned by the transaction that releases it")]
    NotOwner,
    /// X3: LEAVE of more units than are in use.
    #[error("more units leave the storage than are in use")]
    LeaveTooMany,
    /// X4: DEPART of more units than the content.
    #[error("more units depart than the queue holds")]
    DepartTooMany,
    /// X5: an absent parameter, or an attribute of a transaction where there is none.
    #[error("there is no such parameter")]
    NoParameter,
    /// X6: a division by 0.
    #[error("a divisor is 0")]
    ZeroDivisor,
    /// X7: a value outside its range, or the number of an entity or a parameter below 1.
    #[error("a value is out of range")]
    Range,
    /// X8: there is no next block, or it is a GENERATE that the transaction did not come from.
    #[error("there is no next block to enter")]
    NoNextBlock,
    /// X9: more than 100,000 transactions would live.
    #[error("too many transactions would live")]
    TooManyTransactions,
    /// X10: VARIABLEs and FUNCTIONs nested deeper than 32.
    #[error("variables and functions nest too deep")]
    VariableDepth,
    /// X11: units below 1, or a count below 0.
    #[error("a count is too small")]
    BadCount,
    /// X12: more units than the capacity, or a content or an entry count past its limit.
    #[error("too many units")]
    TooManyUnits,
}

impl Stop {
    /// The stop's number, 1 to 12, which a report prints after an X.
    pub fn number(self) -> u8
        ensures { result ≡ number_of self }
    {
        match self {
            Stop::NegativeTime => 1,
            Stop::NotOwner => 2,
            Stop::LeaveTooMany => 3,
            Stop::DepartTooMany => 4,
            Stop::NoParameter => 5,
            Stop::ZeroDivisor => 6,
            Stop::Range => 7,
            Stop::NoNextBlock => 8,
            Stop::TooManyTransactions => 9,
            Stop::VariableDepth => 10,
            Stop::BadCount => 11,
            Stop::TooManyUnits => 12,
        }
    }
}
