//! The tests of gw_lanes, gw_shared, gw_streams and gw_table, and lists of events over a desk, in a crate of their own: a
//! crate with tests is proved twice.
#![tactic(auto)]

#[cfg(test)]
mod growing;
#[cfg(test)]
mod lanes;
#[cfg(test)]
mod legs;
#[cfg(test)]
mod shared;
#[cfg(test)]
mod streams;
#[cfg(test)]
mod table;
