ghost use Rattle.std.specs.Prelude.{◌≡◌, ◌<◌, ◌↔◌, Some, None, IsSome, IfSome};

use std::marker::Model;

/// The id of a statement of a version: a number of its own, which edits leave alone. 0 is the id of none. Ids lie below
/// 4,294,967,295.
#[derive(Clone, Copy, PartialEq, Eq, Hash)]
pub struct StatementId {
    number: u32,
}

impl Model for StatementId {
    ghost use Rattle.std.specs.Prelude.{ℕ, ◌<◌};

    ghost Value = { ℕ };

    ghost view = { λ s. s.number };

    ghost invariant = { λ s. s.number < 4294967295 };

    ghost inverse = { λ n. record { number = n } };
}

impl StatementId {
    /// The id of no statement.
    pub const NONE: StatementId = StatementId { number: 0 };

    /// The id with this number, where an id has it.
    pub fn new(number: u64) -> Option<StatementId>
        ensures in_range { IsSome result ↔ (number < 4294967295) }
        ensures value { IfSome result (λ id. id ≡ number) }
    {
        if number < u64::from(u32::MAX) {
            Some(StatementId {
                number: number as u32,
            })
        } else {
            None
        }
    }

    // The id with this number, which an id has.
    pub(crate) fn known(number: u32) -> StatementId
        requires { number < 4294967295 }
        ensures { result ≡ number }
    {
        StatementId { number }
    }

    /// The id's number.
    pub fn number(self) -> u64
        ensures { result ≡ self }
    {
        u64::from(self.number)
    }

    // The id's number in 32 bits, and its bound.
    pub(crate) fn short(self) -> u32
        ensures value { result ≡ self }
        ensures bound { result < 4294967295 }
    {
        self.number
    }
}
