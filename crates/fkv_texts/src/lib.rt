//! The text of a log: the list of its entries in rising address, and what it says.
//!
//! Each entry has its address, the address of the entry before it in its class, its key, and its value or none for a
//! tombstone. What is said of a text, and how it changes, is said here once, for whatever keeps one: a text says the
//! same wherever its bytes are. Where entries are deltas, the text is what they stand for.
#![tactic(auto)]

pub mod deltas;
pub mod entries;
pub mod laws;

pub use entries::{ChainPosition, Entry};
