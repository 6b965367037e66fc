//! The desk: one version kept open with the recorded run of each of its replications, edited and queried.
//!
//! Every report that [`Desk::peek`] and [`Desk::finish`] hand out is, byte for byte, the report of a run from zero of
//! the version that is open. [`Desk::finish`] makes just the steps that are missing, and [`Desk::edit`] throws away of
//! each recorded run only what lies after its last kept moment at or before the first use of what the edit touches.
//!
//! A run can also be worked on apart from the desk: [`Desk::take`] hands out a [`Leg`] that starts where the record
//! stands, and [`Desk::post`] takes over what later edits left of it, where that goes on beyond the record.
//!
//! What is proved, over every list of the six events, which are edits, peeks and finishes, and takes, works and posts
//! of workers 1 to 16:
//!
//! - The headline: each report handed out is that of the version made anew from its statements, run from zero; and,
//!   where the model was read, of the model that `list` prints.
//! - Each recorded run is the run from zero of the open version with its replication's seed, before and after every
//!   event. After an edit each run has exactly the kept steps.
//! - The accepted edits are kept in order. A refused edit changes nothing.
//! - `Unfinished` is answered exactly where the recorded steps do not decide. [`Desk::finish`] adds exactly the missing
//!   steps to the run, and counts them.
//! - A leg starts at the recorded number, is worked by at most the steps that are wanted, and is a record of the
//!   version from which it was taken (`IsTaken`, `Works`).
//! - A post takes over a leg of this desk exactly where later edits leave it alone up to its start, it starts at or
//!   below the record, and it goes on beyond the record; it is cut to its last kept moment at or before the first step
//!   that read something touched. Any other leg is dropped, for a reason that the contract names.
//! - A text that is kept is the report that would be printed.
//! - A search for the point of a START finds what a point is, and a query is answered what it found.
//! - A desk is a keeper, which does what its calls say.
//!
//! Contracts: `Desk::new`, `edit`, `edits`, `peek`, `finish`, `take`, `post`, `play`, `recorded`, `run`, `made`,
//! `version`; `Leg::work`, `start`, `end`, `made`; `Keeper`; `reports_are_right`, `numbers_do_not_matter`,
//! `points_are_found`, `answers_tell`.
#![tactic(auto)]

mod answer;
mod desk;
mod edits;
mod finish;
mod keeper;
mod laws;
mod leg;
mod look;
mod play;
mod post;
mod queries;
mod rebase;
mod recording;
mod survive;
mod take;
mod texts;
mod work;

pub use answer::{Answer, Report};
pub use desk::Desk;
pub use keeper::Keeper;
pub use laws::{answers_tell, numbers_do_not_matter, points_are_found, reports_are_right};
pub use leg::Leg;
pub use play::{Event, Reply};
pub use post::Post;
