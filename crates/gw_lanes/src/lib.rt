//! The least of many numbers, the first place of a number among many, and how many lie in classes, some at a time.
//!
//! [`first_at`] reads eight numbers at a time by vectors, [`least`] eight without, and [`count_at_most`] and
//! [`class_counts`] sixteen; what is left over is read one by one. They take no memory, and answer what the plain recursion
//! over the list answers, for every length.
//!
//! The classes count each number once.
//!
//! Contracts: `least`, `first_at`, `count_at_most`, `class_counts`.
#![tactic(auto)]

mod counts;
mod lanes;

pub use counts::{class_counts, count_at_most};
pub use lanes::{first_at, least};
