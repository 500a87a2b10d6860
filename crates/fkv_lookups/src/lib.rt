//! The records of one partition, with an index that leads to the last record of each class, and what an operation does
//! for what a look-up meets: in memory, by regions, or on a device.
#![tactic(auto)]

pub mod chain_results;
pub mod clearing;
pub mod decisions;
pub mod laws;
mod maps;
pub mod payloads;
pub mod records;

pub use chain_results::ChainResult;
pub use decisions::{Decision, DecisionOf, LookupResult, decide, low_of, met_by};
pub use payloads::Payload;
pub use records::Records;
