//! The bytes at the edge of the program: one source of bytes, and one sink.
//!
//! A [`Source`] gives the bytes of a model and then of a script, and a [`Sink`] takes the answers. [`write_all`]
//! writes a slice, [`read_line`] reads a line, [`split_model`] reads the text of a model up to its line `end`,
//! and [`read_all`] reads an input to its end. A [`Budget`] counts the calls of [`Source::read`], of which one
//! session makes [`READ_LIMIT`] at most.
//!
//! [`FromRead`] and [`ToWrite`] stand before std's readers and writers.
//!
//! Bytes read and written are accounted for. Each failure is counted once.
//!
//! Contracts: `read_line`, `split_model`, `read_all`, `write_all`.
#![tactic(auto)]

mod budget;
mod line;
mod model;
mod room;
mod sink;
mod source;
mod std_io;
mod whole;

pub use budget::{Budget, READ_LIMIT, ReadFault, read_byte};
pub use line::{Line, read_line, without_cr};
pub use model::split_model;
pub use sink::{Sink, write_all};
pub use source::{Failed, Source};
pub use std_io::{FromRead, ToWrite};
pub use whole::read_all;
