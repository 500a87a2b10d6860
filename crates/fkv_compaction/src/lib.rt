//! Compactors: sessions that clear the start of a partition's log, one relocation at a time, and cut it.
#![tactic(auto)]

pub mod compactor;

pub use compactor::Compactor;
