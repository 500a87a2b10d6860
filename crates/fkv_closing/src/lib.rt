//! The end of a store: from its partitions, taken out of their locks, and the own lists of its passes to one map.
//!
//! A pass is one caller's way into the store. It keeps, of each partition, an own list of what it was answered there, and its
//! share: how many operations it finished. Of a lock's value nothing is known but what its type says, so the parts are
//! compared here, as the program runs (`specs/Closing.antt`): the shares add up to what the partitions finished, each
//! partition stands in its place, and each history is a merge of the own lists of its partition. Only then the pages are read
//! for the map.
#![tactic(auto)]

pub mod closing;
mod gathering;
mod merges;
mod owns;
mod sums;

pub use closing::{Closed, Settled, close_parts, close_unlisted};
