//! A map from small numbers to values, without hashing.
//!
//! A [`Table`] keeps the values by number, and beside them the numbers that have one, in the order of first insertion.
//! So a look-up is one read and two tests, and the memory is in the order of the greatest number: it serves numbers
//! that are handed out one after another, such as those of statements.
//!
//! What grows is reserved first: where [`Table::reserve`] made room for a number, there is room for good, and
//! [`Table::set`] needs no memory and cannot fail.
//!
//! Contracts: `Table::get`, `pair`, `set`, `reserve`, `copy`.
#![tactic(auto)]

mod table;

pub use table::Table;
