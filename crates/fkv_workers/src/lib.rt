//! What a run over feeds by several workers stands on: how feeds are shared out to workers ([`feed_shares`]), and the law that
//! their table is that of one worker ([`laws`]).
//!
//! Each worker reads its share of the feeds, feeds of its own ([`running`]) or blocks of any ([`blocks`]), and makes each row an
//! update of a store that all share, or a merge. So a partition's history is a shuffle of the workers' own lists
//! (`specs/Shares.antt`), and functions that take inputs in any order come to the same.
#![tactic(auto)]

pub mod blocks;
pub mod feed_shares;
pub(crate) mod keeping;
pub mod laws;
pub(crate) mod listing;
pub mod running;
pub(crate) mod sharing;
pub(crate) mod spilling;
pub(crate) mod tabling;
pub(crate) mod waiting;
pub(crate) mod worker_jobs;
pub(crate) mod working;

pub use blocks::{run_blocks, spill_blocks};
pub use fkv_feeds::{run_one, run_one_by};
pub use running::{MOST_FEEDS, MOST_WORKERS, run_feeds, run_feeds_by};
