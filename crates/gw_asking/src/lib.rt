//! What a step asks, draws and notes.
//!
//! A [`Run`] is a version with a seed, and what a step is of. Each question to it notes its item ([`Notes`]). A function
//! that asks gives what its evaluation in the definitions comes to, or a [`gw_expr::Halt`]. Where memory is refused,
//! what earlier steps noted stays.
//!
//! Each question is answered as the version answers it, and noted for the step that asks. A draw and a sampled time are
//! what the definition's evaluation gives, or the reason why there is none.
//!
//! Contracts: `ask_block`, `ask_label`, .., `draw`, `sample`, `multiplied`, the calls of `Notes`.
#![tactic(auto)]

mod draws;
mod notes;
mod run;

pub use draws::{draw, millionths, modifier_of, multiplied, sample};
pub use notes::Notes;
pub use run::{
    Run, ask_argument, ask_block, ask_capacity, ask_command, ask_fits, ask_generates, ask_label,
    ask_next, ask_number, ask_within,
};
