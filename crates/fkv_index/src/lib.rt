//! Tagged words in buckets: the index of a hybrid log.
//!
//! A key's hash gives a bucket and a tag of 15 bits, and the index has for each such pair at most one
//! final entry, with an address of 48 bits: where the chain of the pair's records begins. A bucket is 64
//! bytes: seven words, and the number of the block in which its overflow buckets stand side by side.
//!
//! An entry is made in two phases, so that two sessions that insert one tag can not both succeed.
//! [`Index::probe`] finds an empty place and [`Index::claim`] writes a tentative entry there, which
//! look-ups pass over. [`Index::confirm`] then scans the bucket again: it makes the entry final where no
//! other entry of its tag stands, and empties its place else. From then on [`Index::exchange`] moves the
//! entry from one address to the next, and [`Index::sweep`] empties it once its address is truncated.
//!
//! A word stays where it is until it is emptied, so a place and a word that were found once can be
//! compared later.
#![tactic(auto)]

mod buckets;
mod index;
mod words;

pub use index::Index;
pub use words::{NO_RECORD, Place, Word};
