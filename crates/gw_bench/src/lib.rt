//! The bench: a row of set-once boxes in which an accepted edit stands for good, passes over it, and a desk under a lock
//! that follows it.
//!
//! [`Bench::edit`] and [`Bench::versions`] take no lock. A leg that [`Bench::take`] gives is worked outside the lock, and
//! [`Bench::post`] hands its steps in. A [`Seat`] is a keeper over a bench, as a session wants one.
//!
//! What is proved:
//!
//! - A pass is a front of the row. Of any two fronts one begins the other, whichever threads used the passes.
//! - An accepted edit is the last of the front that its caller then sees, at the number that is answered. The version
//!   of the edits before it accepted it, and that front is longer than before.
//! - An edit is refused because the version of that front refuses it, because the row is full, or because memory was
//!   refused.
//! - Each answer of a `peek`, a `finish` or a `take` is for a front that begins with all that the caller has seen, and
//!   that is seen then.
//! - Under the lock ([`Held`]) is a desk of the opening version with the accepted edits of its front. Each call there
//!   changes it as the desk's own call does.
//! - A seat is a keeper that answers so, and its `finish` never answers `unfinished`.
//!
//! Contracts: `Bench::unread_pass`, `edit`, `versions`, `compare`, `peek`, `finish`, `take`, the calls of `Held`,
//! `Seat::new`, `Seat` as a `Keeper`.
#![tactic(auto)]

mod bench;
mod fault;
mod hands;
mod held;
mod leg;
mod pass;
mod row;
mod seat;

pub use bench::Bench;
pub use fault::BenchFault;
pub use held::Held;
pub use leg::Leg;
pub use pass::{Pass, RowName};
pub use row::Row;
pub use seat::Seat;
