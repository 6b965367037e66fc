//! Random streams: the generator, and seven streams that draw from it.
//!
//! [`Streams`] keeps for each stream the number that it is set to, until its first draw, and then the number that it
//! drew last. The seed of a replication is wanted at a stream's first draw alone ([`Streams::wants_seed`]). Contracts
//! see the streams as a list.
//!
//! A draw is the generator's next number: from where the stream is, or, at the first draw, from the seed and the value
//! to which the stream was set. Each stream begins set to its number, and RMULT sets it as the definition says.
//!
//! Contracts: `Streams::new`, `draw`, `wants_seed`, `set_all`.
#![tactic(auto)]

mod stream;
mod streams;

pub use stream::Stream;
pub use streams::Streams;
