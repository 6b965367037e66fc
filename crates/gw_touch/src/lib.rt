//! What an edit touches, and how far back a recorded run goes for it.
//!
//! What an [`Edit`] of a version touches ([`touch_of`]) is a list of probes in each replication. They are of exactly what
//! is told case by case ([`touches_exactly`]), and of nothing but named things that both versions answer alike
//! ([`touches_what_differs`]). Of a recorded run the steps stand up to the first one that asked for something touched
//! ([`touched`]): the run goes back to the last kept moment at or before it ([`go_back`]).
//!
//! What is proved:
//!
//! - The list of probes is the definition's, in every replication or in the one that the edit names. Its cases are of
//!   statements, names, commands, amounts and times.
//! - The old and the new version answer each touched item in two ways, but for: a command, which counts as changed
//!   whatever takes its place; what is written otherwise and read as before; the list of GENERATEs, where another
//!   GENERATE takes the place of one; what comes after a block that is deleted or inserted and is the last one; what is
//!   asked of a storage that is deleted, inserted or renamed; and times beyond both horizons.
//! - A run goes back without memory, to exactly that kept moment. Where the step comes before its start, the run is
//!   left as it was, and the answer is that it is lost.
//!
//! Contracts: `touch_of`, `touches_exactly`, `touches_what_differs`, `touched`, `go_back`.
#![tactic(auto)]

mod going_back;
mod laws;
mod lines;
mod same;
mod touch;
mod touched_step;
mod versions;

pub use going_back::go_back;
pub use laws::{touches_exactly, touches_what_differs};
pub use lines::storage_place;
pub use touch::{Touch, touch_of};
pub use touched_step::touched;
pub use versions::same_version;
