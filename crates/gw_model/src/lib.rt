//! A version of a model, as a type: its statements with ids of their own, the horizon, the replications and the step
//! limit, all well-formed, and what it answers.
//!
//! What is proved:
//!
//! - A [`Version`] is made from statements, by one splice of a version, or with other replications or another horizon.
//!   A refusal has the first of M5, M6, M7, M1, M2, M3 and M4.
//! - Well-formed means: each label that a block names, or of whose block an attribute is asked, is that of a block;
//!   what ENTER, LEAVE, a GATE of a storage and the attributes of one name is a STORAGE; what TABULATE and `TC$` name is
//!   a TABLE; what `V$` names is a VARIABLE, and what `FN$` names a FUNCTION; a name that is used as a number has an EQU.
//!   All this holds in parentheses, in VARIABLEs and in FUNCTIONs, too.
//! - Each look-up is the definition's.
//!
//! Contracts: `Version::new`, `with_splice`, `with_replications`, `with_horizon`, `numbered`, `block`, `after`,
//! `label`, `capacity`, `number_of`, ..; `first_faults_are_found`.
#![tactic(auto)]

mod by_name;
mod fault;
mod laws;
mod limits;
mod lines;
mod lists;
mod missing;
mod named;
mod names;
mod places;
mod replications;
mod settings;
mod tabled;
mod tables;
mod version;

pub use fault::ModelFault;
pub use laws::first_faults_are_found;
pub use version::Version;
