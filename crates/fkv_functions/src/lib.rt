//! What a user's update functions mean, and the values that they work on.
//!
//! Everything above speaks of functions that a user supplies: how the value of a key starts, how an
//! input changes it, what a read shows of it, and how a key hashes. Their meanings are ghost members of
//! [`Functions`], so each theorem above is proved once, for every lawful set of functions.
#![tactic(auto)]

pub mod asks;
pub mod capped;
pub mod counts;
pub mod hashes;
pub mod integers;
pub mod keys;
pub mod maxima;
pub mod names;
pub mod refusals;
pub mod sums;
pub mod updates;
pub mod values;

pub use asks::{Ask, AskOf, Built};
pub use capped::CappedSumFns;
pub use counts::CountFns;
pub use hashes::{fmix_64_hash, fnv_1a_hash};
pub use maxima::MaxFns;
pub use names::Name;
pub use refusals::{Refused, What};
pub use sums::SumFns;
pub use updates::{Functions, Mergeable, OrderFree};
pub use values::{Fixed, FixedKey, Known};
