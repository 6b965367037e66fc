//! The steps of a run.
//!
//! [`step`] is the step of the definitions: it makes the same move with the same questions, or says why none
//! follows and changes nothing. A refused growth changes nothing either.
//!
//! A step is noted as the first step of exactly those items that it reads and that no earlier step read. An end, and a
//! refused growth, leave nothing noted. Only a move is counted.
//!
//! Contracts: `step`, `end_at`.
#![tactic(auto)]

mod attempt;
mod commands;
mod course;
mod decide;
mod hand_on;
mod scanning;
mod steps;
mod tally;

pub use gw_asking::Notes;
pub use steps::{Turn, end_at, step};
pub use tally::Tally;
