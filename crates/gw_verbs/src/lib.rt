//! What the verb of each block decides: the move that comes of a transaction that tries the block.
//!
//! A verb has one public function, in the order of its definition (specs/Step of gw_meaning): it asks, draws and tests,
//! and gives the move or why none follows. It changes nothing but the notes.
//!
//! The move is the definition's, with its questions and its draws.
//!
//! Contracts: `decide_seize`, `decide_enter`, `decide_test`, ..
#![tactic(auto)]

mod advance;
mod assign;
mod buffer;
mod depart;
mod enter;
mod entering;
mod gate;
mod generate;
mod grants;
mod leading;
mod leave;
mod link;
mod logic;
mod loops;
mod mark;
mod priority;
mod queue;
mod release;
mod savevalue;
mod seize;
mod split;
mod tabulate;
mod terminate;
mod test;
mod transfer;
mod unlink;

pub use advance::decide_advance;
pub use assign::decide_assign;
pub use buffer::decide_buffer;
pub use depart::decide_depart;
pub use enter::decide_enter;
pub use gate::decide_gate;
pub use generate::decide_generate;
pub use leave::decide_leave;
pub use link::decide_link;
pub use logic::decide_logic;
pub use loops::decide_loop;
pub use mark::decide_mark;
pub use priority::decide_priority;
pub use queue::decide_queue;
pub use release::decide_release;
pub use savevalue::decide_savevalue;
pub use seize::decide_seize;
pub use split::decide_split;
pub use tabulate::decide_tabulate;
pub use terminate::decide_terminate;
pub use test::decide_test;
pub use transfer::decide_transfer;
pub use unlink::decide_unlink;
