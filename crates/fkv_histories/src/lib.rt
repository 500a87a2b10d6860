//! Histories of a partition that callers share: which operations were finished, in order, each at its place between the
//! updates; and the lists that callers keep of what they were answered.
//!
//! A history is legal (`specs/Histories.antt`) where each operation answers what the plain map does after as many updates as
//! stand before its place. It is a merge of callers' own lists (`specs/Merges.antt`) where each list is, in order, what the
//! history has of the sessions of that list. Both kinds of list are kept by a [`Recorder`], which keeps each entry
//! ([`Audited`]) or only counts the updates ([`Plain`]).
#![tactic(auto)]

pub mod entries;
pub mod laws;
pub mod merging;
pub mod recorders;

pub use entries::{Entry, EntryOf, is_same_told};
pub use merging::is_merge;
pub use recorders::{Audited, Plain, Recorder};
