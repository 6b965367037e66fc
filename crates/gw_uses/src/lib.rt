//! The first step of a run that used each item.
//!
//! [`FirstUses::note`] notes an item that a step read, unless an earlier step did, and [`FirstUses::forget`] forgets
//! the steps from one on. Neither takes memory for an item that is known.
//!
//! For each item, the first step that was noted with it is known, and no other; for each time, the first clock step that
//! went beyond it. Of two capacities, the first step is known that asked what they answer differently: whether an amount
//! fits, or the capacity itself. A copy knows the same.
//!
//! Contracts: `FirstUses::note`, `note_asked`, `get`, `forget`, `copy`; `ItemSteps::first_ask`.
#![tactic(auto)]

mod clock_steps;
mod first_steps;
mod first_uses;
mod item_steps;

pub use clock_steps::{ClockStep, ClockSteps};
pub use first_steps::FirstSteps;
pub use first_uses::FirstUses;
pub use item_steps::{ItemSteps, earlier};
