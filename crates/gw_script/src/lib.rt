//! Lines in, bytes out: a session over one keeper of a version.
//!
//! [`session`] opens the model on a desk, reads the script line by line and answers each line; what it wrote is what
//! the model and the script mean: each report is that of the model that `list` prints, read anew and run from zero. The
//! version stays open from line to line, so that a report makes only the steps that no earlier line made.
//! [`session_on`] does the same over any [`Keeper`].
//!
//! What is proved:
//!
//! - [`session_on`] writes exactly what the script means, line by line, over any keeper of a version, from its state
//!   before to that after. Each answer is written before the next byte is asked for. After a fault, a front of that is
//!   written; a line that was broken off is not answered and changes nothing.
//! - [`session`] does so over a desk with the model. So the headline, that each report is that of the model that `list`
//!   prints, holds for the call that the program makes without workers. The replies to one list of events, which the
//!   session's desk plays in order, determine all that is written.
//! - A session ends with `quit` only where the line feed of that line was read, or the end of the input was found
//!   after it.
//! - At most 16,777,216 calls of read give a byte or find the end, also where the last line lacks its line feed. F5
//!   comes only after all of them.
//! - F3 and F4 come with exactly one more failure of the reader or the writer, every other end with none. F6 comes
//!   while a line is read, or at one that is neither a query nor an edit and of whose answer nothing was written. F1
//!   and F2 leave reader and writer untouched.
//! - `list` shows the statements of the version as the headline reads them, and no statement id.
//!
//! Contracts: `session_on`, `session`, `open`, `sessions_play`, `lists_show_statements`, `opened_is_spelled`.
#![tactic(auto)]

mod answers;
mod edits;
mod fault;
mod laws;
mod listing;
mod opening;
mod queries;
mod reply;
mod sessions;
mod works;

pub use fault::{Fault, Over};
pub use gw_desk::{Desk, Keeper, points_are_found};
pub use gw_io::{
    Budget, Failed, FromRead, READ_LIMIT, ReadFault, Sink, Source, ToWrite, split_model,
};
pub use laws::{lists_show_statements, opened_is_spelled, sessions_play};
pub use opening::{Options, open, open_version};
pub use sessions::{session, session_on};
