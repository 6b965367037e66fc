//! Who waits for a change of something that its refused attempt read, in order of waiting.
//!
//! What is written wakes all who read the same list, or none of them. So they lie group by group, and a wake asks each
//! list once. All that grows is reserved first, so a refused growth changes nothing that is seen.
//!
//! The waiting transactions are a list in order of waiting, each with what it read. A write wakes exactly those that
//! read any of what is written. They line up on the current chain one after another, in that order; the others wait on
//! in theirs. How many read a thing is as defined.
//!
//! Contracts: `Retry::watch`, `reserve`, `wake`, `count`, `share`, `copy`.
#![tactic(auto)]

mod groups;
mod laying;
mod lists;
mod readings;
mod retry;
mod waking;

pub use retry::Retry;
