//! Tests of functions, laws and devices, and types of files that show what is promised of files. What the calls of epochs, regions,
//! frames, the index, pages, records and names answer stands in `fkv_test_storage_calls`.
//!
//! What is to come is written as constant rows, and a helper a kind says whether a row comes so. No crate below
//! is proved a second time for its tests.
#![tactic(auto)]

#[cfg(test)]
mod devices;
#[cfg(test)]
mod files;
#[cfg(test)]
mod functions;
#[cfg(test)]
mod known;
pub mod replays;
pub mod sevens;
