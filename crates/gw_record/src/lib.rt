//! Recorded runs: a run from zero with states kept on its way from a start on, and for each item the first step that
//! uses it.
//!
//! [`Recorded::extend`] makes the steps of the definitions. Every state that a recorded run returns is the state of
//! the run from zero at that moment, and [`Recorded::first_use`] is the first step that uses an item, no earlier
//! and no later. [`Recorded::cut`] goes back to the last kept moment, without memory.
//!
//! What is proved:
//!
//! - A recorded run is the run from zero. It has its tip, the states kept at its start, and after it at the multiples
//!   of K and at the ends of STARTs; the first step that read each item; the first that asked for an amount that one of
//!   two capacities holds and the other does not; and the time of each clock step.
//! - It grows by exactly the steps that are asked for or missing. It goes back to the last kept moment at or before a
//!   step, and to none before its start.
//! - A branch of it starts at its tip and is the record of the same run. What the branch recorded further goes back
//!   into it, with all that it would have kept itself and nothing else.
//! - It stays the record of an edited version whose answers it does not tell apart.
//!
//! Contracts: `Recorded::new`, `extend`, `reach`, `branch`, `adopt`, `every`, `start`, `tip`, `state`, `state_at`,
//! `start_end`, `first_use`, `first_ask`, `first_clock`, `first_command`, `cut`, `lemma_carries`.
#![tactic(auto)]

mod branch;
mod cut;
mod extend;
mod kept;
mod lookup;
mod reach;
mod recorded;

pub use kept::Kept;
pub use reach::Reach;
pub use recorded::Recorded;
