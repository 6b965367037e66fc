//! What a script line asks for.
//!
//! [`request_of`] reads one line. The line is cut at its blanks (words), and its first word is looked up in the table
//! of the commands (command). Each form of what stands after a command word has one reader (arguments), and a word
//! of 1 to 18 digits is a number (number). A further command is a further row of the table, with its form.
//!
//! The one table says what a script line asks for, and which lines are blank, too long, of no command or of bad
//! arguments.
//!
//! Contracts: `request_of`, `lines_ask`, `number_of`.
#![tactic(auto)]

mod arguments;
mod command;
mod laws;
mod number;
mod request;
mod words;

pub use laws::lines_ask;
pub use number::number_of;
pub use request::{LINE_LIMIT, Reason, Request, request_of};
