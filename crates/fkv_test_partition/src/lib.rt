//! Tests of a partition over a device: operations on evicted keys wait for their pages while others go on, pages leave their
//! frames in steps, records are appended again and the log's start is cut, beside compactors, and operations are made alone.
//!
//! A worked run is a list of constant rows, each a call and what it tells. One interpreter (`driven`, `rows`) makes the calls
//! and says which row tells something else; `lone` has a second one for operations that are made alone. The device is one
//! of `fkv_test_devices`, which a row may make answer wrongly. No crate below is proved a second time for its tests.
#![tactic(auto)]

#[cfg(test)]
mod alone;
#[cfg(test)]
mod calls;
#[cfg(test)]
mod compactors;
#[cfg(test)]
mod decisions;
#[cfg(test)]
mod deltas;
#[cfg(test)]
mod driven;
#[cfg(test)]
mod faults;
#[cfg(test)]
mod growths;
#[cfg(test)]
mod lies;
#[cfg(test)]
mod lone;
#[cfg(test)]
mod openings;
#[cfg(test)]
mod operations;
#[cfg(test)]
mod order;
#[cfg(test)]
mod random;
#[cfg(test)]
mod records;
#[cfg(test)]
mod refusals;
#[cfg(test)]
mod relocations;
#[cfg(test)]
mod rows;
#[cfg(test)]
mod straying;
#[cfg(test)]
mod ways;

/// How many interpreters of rows there are.
pub const INTERPRETERS: usize = 2;
