//! Tests of the store for one thread: random operations of all kinds beside the plain map, in memory, on files and over devices of
//! which one call fails, with compactions in between; and rows of single calls.
#![tactic(auto)]

#[cfg(test)]
mod beside;
#[cfg(test)]
mod calls;
#[cfg(test)]
mod faults;
#[cfg(test)]
mod growths;
#[cfg(test)]
mod random;
#[cfg(test)]
mod room;

/// The partitions that random operations are made over.
pub const PARTITION_BITS: [u64; 2] = [0, 3];
