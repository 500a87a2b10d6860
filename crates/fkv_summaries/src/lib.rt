//! Summaries of the amounts of each key: how many there are, their sum, the least and the greatest.
#![tactic(auto)]

pub mod fields;
pub mod summaries;

pub use summaries::{Summary, SummaryFns, updates_come_to_summaries};
