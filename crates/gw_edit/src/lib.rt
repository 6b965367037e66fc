//! Edits of a version.
//!
//! [`apply`] returns the version that an edit makes of a version, or its refusal ([`edits_make`] says which). What the
//! edit touches ([`touch_of`]) is a list of probes in each replication. The two versions answer every other question
//! alike ([`untouched`]), and each touched one differently, but for the cases that are named ([`touched_differs`]). So a
//! recorded run stands as far as it asked for nothing that is touched ([`touched`]), and [`rebase`] makes it the run of
//! the edited version.
//!
//! What is proved:
//!
//! - A refusal has the first of the edit's faults. An insert or a change goes by what its text spells, and is refused
//!   with that text's first fault. Each other edit makes what it says, statement by statement and replication by
//!   replication, and is refused for what it says.
//! - gw_touch names what is touched and answered alike all the same. The line `capacity` touches only the amounts that
//!   its two capacities answer in two ways.
//! - An edit of statements that were read leads to statements that some text spells.
//! - The recorded run of a replication, gone back for what is touched, is that of the edited version; or it is left as
//!   it was, and the answer is that it is lost. A run that the edit does not touch is, in positions, the old one with
//!   its positions moved.
//!
//! Contracts: `apply`, `edits_make`, `untouched`, `touched_differs`, `capacity_touches_what_differs`, `rebase`,
//! `edit_in_positions`, `edits_are_spelled`.
#![tactic(auto)]

mod fault;
mod laws;
mod making;
mod rebasing;
mod replications;
mod text;

pub use fault::EditFault;
pub use gw_touch::{Touch, same_version, touch_of, touched};
pub use laws::{
    capacity_touches_what_differs, edit_in_positions, edits_are_spelled, edits_make,
    touched_differs, untouched,
};
pub use making::apply;
pub use rebasing::rebase;
