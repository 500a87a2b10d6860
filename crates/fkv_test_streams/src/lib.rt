//! Readers and writers that fail, for the libraries of tests.
//!
//! Both count their calls down, and the call after the last fails. A reader that gave its end never fails any more,
//! however often it is asked.
#![tactic(auto)]

pub mod readers;
pub mod writers;

pub use readers::Breaking;
pub use writers::Filling;

/// Counts a call, and says whether it is the one after the last. From then on it is counted down from 2^64 - 1.
fn is_used_up(left: &mut u64) -> bool {
    let (next, is_used_up) = left.overflowing_sub(1);
    *left = next;
    is_used_up
}
