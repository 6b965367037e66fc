//! What the language means: statements, a version's answers, the state, the questions of a step, the run.
//!
//! The definitions stand in `specs/`, in this order: Statements and Texts (verbs, how a statement is listed), Classes
//! (those of a TABLE), Listing and Numbers (what a version says), Places, Levels, Records, Tables, Parameters and
//! QueueArrivals (what is kept of entities and transactions), Entities, Watching and Machine (the state),
//! Questions (what a step may ask), Evaluation (values and draws), Changes (what a move does to a state, and whom it
//! wakes), Step (which move it is, and the run), Reads (what a run read), Point (where a report is taken). The types
//! here are the plain data that they speak of.
//!
//! Copies are equal, and a statement has one printed text.
//!
//! Contracts: `Statement::copy`, `Statement::put_text`, `Block::operand`.
#![tactic(auto)]

mod asker;
mod auxiliary;
mod destination;
mod edit;
mod entity_change;
mod item;
mod moves;
pub mod operands;
mod statement;
mod statement_id;
mod table;
mod text;
mod transaction;
mod transaction_change;
mod watched;

pub use asker::Asker;
pub use auxiliary::{Auxiliary, Condition, Switching};
pub use destination::Destination;
pub use edit::Edit;
pub use entity_change::{EntityChange, FacilityUpdate, QueueUpdate, StorageUpdate, Update};
pub use item::{Asked, Item, Outcome};
pub use moves::{Arrival, Change, Fate, Move};
pub use statement::{Block, Body, Command, Definition, Numbered, Replication, Statement};
pub use statement_id::StatementId;
pub use table::{Classes, Table};
pub use transaction::{Count, Event, Transaction};
pub use transaction_change::TransactionChange;
pub use watched::{EntityKind, Watched};
