//! The chains of transactions (current, future, delay and user) as lists, and the counts of the blocks that they stand in.
//!
//! A refused growth changes no list and no count.
//!
//! What is proved:
//!
//! - A transaction lines up after its equals and in front of the first of lower priority.
//! - A clock step moves exactly the transactions of its time to the current chain, in order.
//! - Of the transactions that wait, exactly those that get their units are let in, and each enters its block.
//! - A transaction that is linked comes to the back or to the front of its user chain, those that are unlinked go from
//!   the front, and a RESET moves none.
//! - What is counted at each block is as defined.
//!
//! Contracts: `PriorityChain::line_up`, `take_first`, `FutureChain::put`, `take_due`, `FutureChain::events`,
//! `DelayChains::line_up`, `take_first`, `let_in_some`, `chain`, `UserChains::link`, `unlink`, `anew`, `let_in`, the calls
//! of `Counts`.
#![tactic(auto)]

mod block;
mod chain;
mod counts;
mod delays;
mod entering;
mod full;
mod future;
mod linked;
mod user_chain;

pub use chain::{PriorityChain, has_grant};
pub use counts::Counts;
pub use delays::DelayChains;
pub use entering::{let_in, place};
pub use future::FutureChain;
pub use linked::UserChains;
