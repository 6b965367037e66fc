//! A run depends only on the questions that it asked.
//!
//! A version that answers those alike has the same run, state for state, and is asked the same. One whose statements
//! have other ids has the run with its ids renamed. Told in positions, a run after an edit that it did not see
//! is the old one with its positions moved. The seed is asked for just where a stream draws first.
//!
//! What is proved:
//!
//! - The frame law: where two versions answer alike all that the steps below m read, the run of m steps is the same run
//!   and reads the same.
//! - A state of a run names only blocks of its version.
//!
//! Contracts: `unseen_edit`, `unseen_reads`, `frame_in_positions`, `renamed`, `ids_are_blocks`,
//! `seed_is_read_at_first_draws`.
#![tactic(auto)]

mod laws;

pub use laws::{
    frame_in_positions, ids_are_blocks, renamed, seed_is_read_at_first_draws, unseen_edit,
    unseen_reads,
};
