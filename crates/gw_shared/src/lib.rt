//! Lists whose copies share what did not change: one that is edited anywhere ([`SharedList`]), one that grows and is cut
//! at its end ([`Growing`]), and one of values that are not `Copy`, which are changed where they stand ([`SharedValues`]).
//!
//! A refused growth changes no item: [`SharedList`] and [`Growing`] reserve first, and after a call of [`SharedValues`]
//! that is refused the values are equal to those before it.
//!
//! Items are read, set, pushed, inserted and removed as in the plain list. A copy has the items of what it copies,
//! whatever is done to either afterwards.
//!
//! Contracts: the calls of `SharedList`, `SharedValues` and `Growing`.
#![tactic(auto)]

mod buffer;
mod chunk;
mod edits;
mod growing;
mod list;
mod long;
mod place;
mod values;

pub use growing::Growing;
pub use list::SharedList;
pub use values::{SharedValues, Sharing};
