//! What operands come to over a state: values, entities, units, times, and the next transaction of a GENERATE.
//!
//! A function gives what its evaluation in the definitions comes to in a [`Context`], or a [`gw_expr::Halt`]. It
//! changes nothing but the notes of what it asks and draws.
//!
//! The evaluation is that for the transaction that asks. An attempt that may wait keeps each thing that it read, once.
//!
//! Contracts: `value_there`, `value_or_zero`, `key_of`, `units_of`, `time`, `arrival`, `arrivals`, `value_traced`,
//! `entity_traced`.
#![tactic(auto)]

mod arriving;
mod attributes;
mod context;
mod operand;
mod seen;
mod times;
mod traced;

pub use arriving::{LIVE_LIMIT, arrival, arrivals};
pub use context::{Context, for_none, for_one};
pub use operand::{entity_traced, key_of, units_of, value_or_zero, value_there, value_traced};
pub use times::time;
pub use traced::keep_once;
