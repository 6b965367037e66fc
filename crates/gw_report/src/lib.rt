//! The standard report of one START of one replication, as bytes.
//!
//! [`print`] is the only call, beside the laws that statement ids do not show and that the classes of a table count
//! each value once. A section is a heading and a function that appends its lines; the definition of the whole text,
//! `specs/Report.antt`, and `report.rt` name the sections in the same order. The lines of a section are written in
//! place over blanks (`sheet.rt`): those of the blocks, the tables and the chains cell by cell, the others by a table of
//! their columns (`column.rt`).
//!
//! The bytes of a report are the definition's, for any state and outcome. A class of a table counts the values within
//! its limits. (That its line prints these counts is the definition's.)
//!
//! Contracts: `print`, `renamed_text`, `classes_hold`.
#![tactic(auto)]

mod blocks;
mod classes;
mod column;
mod current;
mod entity;
mod facilities;
mod future;
mod head;
mod laid;
mod laws;
mod line;
mod moments;
mod names;
mod position;
mod queues;
mod report;
mod section;
mod sheet;
mod storages;
mod tables;
mod title;

pub use laws::{classes_hold, renamed_text};
pub use report::print;
