//! The state of a run: its parts, how it is read and copied, and the one place where it changes.
//!
//! A [`State`] changes by a move alone ([`State::make`]), which was decided before. All that grows is reserved first,
//! so a refused growth changes nothing.
//!
//! Each part of a state is read as defined, and a copy is equal. A move is made as the definition says, with the streams
//! after its draws, and wakes the transactions that wait for something that it writes. How many transactions live is as
//! defined.
//!
//! Contracts: `State::make`, `copy`, `share`, `living`, the readers of `State` and of `Entities`.
#![tactic(auto)]

mod clocks;
mod copy;
mod entering;
mod entities;
mod letting_in;
mod make;
mod newcomers;
mod parts;
mod progress;
mod state;
mod updates;
mod waking;

pub use entities::Entities;
pub use state::State;
