//! What holds of every run from zero, whatever its version: laws above the definition of a step. What a law says of two
//! moments it says where no CLEAR was done between them, after which the state is that before the first step, but for
//! the streams and what is done of the commands. A RESET moves nobody.
//!
//! The current chain and each delay chain are in order of priority. Within a priority the current chain and those of
//! facilities are first in first out. At a storage, whoever goes on waiting keeps his place. Nobody waits at a free
//! facility, nor at a storage that has room for what he asks, nor at a GATE whose condition holds. Those who wait for a
//! change keep their order, and nobody wakes where no block is entered. No two transactions have one number, none is
//! given twice, and each stands in exactly one place. A block's content is the number of the transactions that stand in
//! it. But for a CLEAR the clock never goes back; it stays within the horizon, and moves on only when it must. A run
//! ends only for the reason that its end says. Whoever leaves a user chain is unlinked from its front. A copy is as its
//! parent is but for its number. No facility has more captures than steps were made. No count of a queue passes its
//! limit. No storage has more units in use than its capacity. Parameters are kept of living transactions alone. A
//! transaction's parameters, priority and mark time change only in steps in which it is active. Nobody but its owner
//! gives a facility back. STARTs are done in order, and each is counted once. The future chain is in the order of
//! coming onto it. The active transaction goes to its destination, or else to the next block. A TEST holds where its
//! operator says so.
//!
//! Each law is the contract of one function without parameters. docs/proved.md has each in full, beside its function.
#![tactic(auto)]

mod laws;

pub use laws::{
    a_table_takes_one_value, chain_in_order, clock_goes_on, contents_are_counts, copies_are_made,
    delays_in_order, each_has_one_place, each_keeps_his_own, each_verb_is_evaluated,
    facilities_are_used, facilities_have_owners, goes_where_it_is_sent, items_are_told_apart,
    nobody_waits_for_what_holds, nobody_wakes_for_nothing, numbers_apart,
    parameters_are_of_the_living, queues_are_within, runs_begin_anew, runs_end, starts_are_counted,
    storages_are_within, telling_changes_nothing, tests_hold_as_they_say, user_chains_in_order,
    waiters_wake_in_order,
};
