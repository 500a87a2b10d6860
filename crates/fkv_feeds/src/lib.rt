//! Feeds: tables of what each key's amounts come to.
#![tactic(auto)]

pub mod counting;
pub mod reading;
pub mod running;
pub mod shown;
pub mod spilling;
mod tabling;
pub mod writing;

pub use counting::{Plan, RowMode, RunCounts, TableRun};
pub use fkv_runs::{Pairs, Table};
pub use running::{LIMIT, run_alone, run_alone_by, run_one, run_one_by};
pub use shown::RowFields;
pub use spilling::{SpilledRun, spill_alone_by, spill_one_by};
pub use writing::{write_pairs, write_table};
