//! What facilities, queues, storages and tables keep, and the entities of a run in order of first touch.
//!
//! A [`Level`] is a content over time: its sum is exact, tick by tick. [`Facility`], [`Queue`] and [`Storage`] count
//! what a report tells of them; each takes any change. [`ByKey`] keeps a value for each entity. [`Parameters`]
//! keeps the parameters of transactions, [`QueueArrivals`] who came to which queue, and [`Tables`] the values of tables.
//! [`KeySet`] finds keys by their hash. Copies of each share what did not change.
//!
//! What is proved:
//!
//! - Each verb and a RESET make of a facility, a queue or a storage what is defined, whatever it was before.
//! - The sum of a content over time is the sum, over the ticks, of the content at each.
//! - Entities are in order of first touch, keys and the values of each table in the order in which they came.
//! - Which transaction entered which queue, and the parameters of transactions, are as defined.
//!
//! Contracts: `Facility::seize`, `release`, `Queue::enter`, `depart`, `Storage::enter`, `leave`, `Level::change`,
//! `ByKey::get`, `put`, the calls of `Tables` and of `Values`, `QueueArrivals::has`, `add`, the calls of `KeySet` and
//! of `Parameters`; `sum_is_over_ticks`.
#![tactic(auto)]

mod by_key;
mod counted;
mod facility;
mod key_set;
mod key_table;
mod laws;
mod level;
mod own_list;
mod parameters;
mod queue;
mod queue_arrivals;
mod shared_keys;
mod storage;
mod tables;
mod values;

pub use by_key::ByKey;
pub use counted::Counted;
pub use facility::Facility;
pub use key_set::KeySet;
pub use laws::sum_is_over_ticks;
pub use level::Level;
pub use parameters::Parameters;
pub use queue::Queue;
pub use queue_arrivals::QueueArrivals;
pub use storage::Storage;
pub use tables::Tables;
pub use values::Values;
